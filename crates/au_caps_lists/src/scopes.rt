//! What names mean among types in bodies.

ghost use Rattle.std.specs.Prelude.{◌≡◌, ◌<◌, [], length};
ghost use Rattle.au_modules.specs.Slots as slots;
ghost use Rattle.au_names.specs.HeadsOf.{heads_of};
ghost use Rattle.au_syntax.specs.declared.modules.Part.TheVariants as parts;
ghost use Rattle.au_types.specs.Senses.{sense_of};
ghost use Rattle.au_types.specs.WrittenViews.{sense_in};
ghost use Rattle.au_typing.specs.Written as written;

use au_imports::Resolved;
use au_syntax::Part;
use au_types::{DeclAt, Params, Scope, Table};

/// What names mean among types in the body of the module at a place.
fn types_at(program: &Resolved, place: usize) -> &Table<DeclAt>
    requires { place < length (slots.modules program.now) }
    ensures { result.now ≡ written.types_at (slots.modules program.now) place parts.Body }
{
    &program.names(place, Part::Body).types
}

/// The same under type parameters.
pub fn scope_of<'a>(program: &'a Resolved, params: &'a Params, place: usize) -> Scope<'a>
    requires { place < length (slots.modules program.now) }
    ensures { sense_in result ≡ sense_of [] params.now
        (written.types_at (slots.modules program.now) place parts.Body)
        (heads_of (slots.modules program.now)) }
{
    Scope {
        regions: &[],
        params,
        names: types_at(program, place),
        heads: program.heads_ref(),
    }
}
