//! The module of a file.

ghost use Rattle.std.specs.Prelude.{◌≡◌, ◌∷◌, [], drop, map};
ghost use Rattle.au_read_expressions.specs.Reading.{Gives, begins_with, behind_tokens, closed};
ghost use Rattle.au_read_expressions.specs.Reading.{pair, repeated, tokens_at};
ghost use Rattle.au_parser.specs.DeclarationReading.{begins_declaration, declaration_at};
ghost use Rattle.au_read_expressions.specs.Bounds.{usual};
ghost use Rattle.au_base.specs.declared.tokens.Keyword.TheVariants as word;
ghost use Rattle.au_base.specs.declared.tokens.What.TheVariants as what;
ghost use Rattle.au_parser.specs.ModuleReading.{end_whats, file_at, module_at, part_by, part_whats};
ghost use Rattle.au_parser.specs.ModuleReading.{parts_of, parts_with, pragma_at};
ghost use Rattle.au_syntax.specs.Views as views;

use crate::declarations::declarations;
use crate::imports::{imports, module_name};
use au_base::{Keyword, Pos, Sign, Token};
use au_read_expressions::{Expected, Stop, after, expect, is_word, place, stop_before};
use au_syntax::{Decl, Ident, Module, Parsed, Part, Phase};
use std::alloc::Global;

/// Reads a pragma, or nothing, and returns its place.
fn pragma(tokens: &[Token]) -> Result<(Option<Pos>, &[Token]), Stop>
    ensures { Gives (λ x. (x.0, x.1.now)) result (pragma_at tokens.now) }
{
    if !is_word(Keyword::KwPragma, tokens) {
        return Ok((None, tokens));
    }
    let at = place(tokens);
    let known = [
        Expected::Word(Keyword::KwPragma),
        Expected::Name(b"Unsafe_Module"),
        Expected::Sign(Sign::Semicolon),
    ];
    let rest = expect(&known, tokens)?;
    Ok((Some(at), rest))
}

/// Whether a module is an interface or a body, by its second token.
fn part_of(tokens: &[Token]) -> Part
    ensures { result ≡ part_by (begins_with (what.Word word.KwBody) (drop 1 tokens.now)) }
{
    if is_word(Keyword::KwBody, after(tokens)) {
        Part::Body
    } else {
        Part::Interface
    }
}

/// Reads `module` or `module body`.
fn opening(part: Part, tokens: &[Token]) -> Result<&[Token], Stop>
    ensures { Gives (λ rest. rest.now) result (tokens_at (part_whats part) tokens.now) }
{
    match part {
        Part::Interface => expect(&[Expected::Word(Keyword::KwModule)], tokens),
        Part::Body => {
            let known = [
                Expected::Word(Keyword::KwModule),
                Expected::Word(Keyword::KwBody),
            ];
            expect(&known, tokens)
        }
    }
}

/// Reads `end module.` or `end module body.`.
fn closing(part: Part, tokens: &[Token]) -> Result<&[Token], Stop>
    ensures { Gives (λ rest. rest.now) result (tokens_at (end_whats part) tokens.now) }
{
    match part {
        Part::Interface => {
            let known = [
                Expected::Word(Keyword::KwEnd),
                Expected::Word(Keyword::KwModule),
                Expected::Sign(Sign::Dot),
            ];
            expect(&known, tokens)
        }
        Part::Body => {
            let known = [
                Expected::Word(Keyword::KwEnd),
                Expected::Word(Keyword::KwModule),
                Expected::Word(Keyword::KwBody),
                Expected::Sign(Sign::Dot),
            ];
            expect(&known, tokens)
        }
    }
}

/// Reads `is`, a pragma and the declarations up to the end of a module of this part.
fn contents(
    alloc: Global,
    part: Part,
    tokens: &[Token],
) -> Result<(Option<Pos>, Vec<Decl<Parsed>>, &[Token]), Stop>
    ensures { Gives (λ x. ((x.0, map (views.declaration ⟦<Parsed as Phase>⟧) x.1.items), x.2.now)) result
        (behind_tokens (what.Word word.KwIs ∷ []) (pair pragma_at
        (closed (end_whats part) (repeated (begins_declaration part) (declaration_at usual part))))
        tokens.now) }
{
    let rest = expect(&[Expected::Word(Keyword::KwIs)], tokens)?;
    let (pragma, rest) = pragma(rest)?;
    let (declarations, rest) = declarations(alloc, part, rest)?;
    match closing(part, rest) {
        Ok(rest) => Ok((pragma, declarations, rest)),
        Err(stop) => Err(stop),
    }
}

/// A module without its imports.
#[derive(Drop)]
struct Inner {
    at: Pos,
    name: Vec<Ident<Parsed>>,
    pragma: Option<Pos>,
    declarations: Vec<Decl<Parsed>>,
}

/// Reads a module of this part behind its imports.
#[tactic(auto, unfolding(crate::specs::ModuleReading::parts_with))]
fn inside(alloc: Global, part: Part, tokens: &[Token]) -> Result<(Inner, &[Token]), Stop>
    ensures { Gives (λ x. (
      parts_of part x.0.at (
        map (views.placed ⟦<Parsed as Phase>⟧) x.0.name.items,
        (x.0.pragma, map (views.declaration ⟦<Parsed as Phase>⟧) x.0.declarations.items),
      ),
      x.1.now,
    )) result
        (parts_with usual part tokens.now) }
{
    let at = place(tokens);
    let rest = opening(part, tokens)?;
    let (name, rest) = module_name(alloc, rest)?;
    match contents(alloc, part, rest) {
        Ok((pragma, declarations, rest)) => Ok((
            Inner {
                at,
                name,
                pragma,
                declarations,
            },
            rest,
        )),
        Err(stop) => Err(stop),
    }
}

/// Reads a module.
#[tactic(auto, unfolding(crate::specs::ModuleReading::module_at))]
fn module(alloc: Global, tokens: &[Token]) -> Result<(Module<Parsed>, &[Token]), Stop>
    ensures { Gives (λ x. (views.module_tree ⟦<Parsed as Phase>⟧ x.0, x.1.now)) result
        (module_at usual tokens.now) }
{
    let (imports, rest) = imports(alloc, tokens)?;
    let part = part_of(rest);
    match inside(alloc, part, rest) {
        Ok((inside, rest)) => Ok((
            Module {
                imports,
                at: inside.at,
                part,
                name: inside.name,
                pragma: inside.pragma,
                declarations: inside.declarations,
            },
            rest,
        )),
        Err(stop) => Err(stop),
    }
}

/// Reads a file: a module, and no token behind it.
///
/// # Errors
///
/// `Fault::Syntax` at the first token that continues no file, and `Fault::Passed` where a limit is passed.
#[tactic(auto, unfolding(crate::specs::ModuleReading::file_at))]
pub fn file(alloc: Global, tokens: &[Token]) -> Result<Module<Parsed>, Stop>
    ensures { Gives (λ tree. (views.module_tree ⟦<Parsed as Phase>⟧ tree, [])) result
        (file_at usual tokens.now) }
{
    let (tree, rest) = module(alloc, tokens)?;
    match rest {
        [] => Ok(tree),
        _ => Err(stop_before(rest)),
    }
}
