//! What a part of a module of a program sees.

ghost use Rattle.std.specs.Prelude.{◌≡◌, ◌<◌, length};
ghost use Rattle.au_classes.specs.Rows.{rows_of};
ghost use Rattle.au_modules.specs.Slots as slots;
ghost use Rattle.au_typing.specs.Outsides.{outside_of};
ghost use Rattle.au_sights.specs.Sights.{outside_seen};

use au_imports::Resolved;
use au_instances::Instances;
use au_sights::Surroundings;
use au_syntax::Part;

/// What a part of the module at a place sees outside of its functions.
pub fn sight<'a>(
    program: &'a Resolved,
    instances: &'a Instances,
    place: usize,
    part: Part,
) -> Surroundings<'a>
    requires place { place < length (slots.modules program.now) }
    requires instances { instances.now ≡ rows_of (slots.modules program.now) }
    ensures { outside_seen result ≡ outside_of (slots.modules program.now) place part }
{
    Surroundings {
        program,
        instances,
        names: program.names(place, part),
        place: place as u16,
    }
}
