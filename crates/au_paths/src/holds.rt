//! How a variable is held at a place.

ghost use Rattle.std.specs.Prelude.{◌≡◌, ◌∷◌, [], if◌then◌else◌};
ghost use Rattle.std.specs.Str.{bytes_eq};
ghost use Rattle.au_lives.specs.Lives as lives;
ghost use Rattle.au_lives.specs.Lives.{held_from};
ghost use Rattle.au_lives.specs.Paths.{declared, lent, declared_by, bound_name, bound_names, access_of};
ghost use Rattle.au_paths.specs.Seen.{seen_name, seen_bind, seen_binds, seen_statement};
ghost use Rattle.au_paths.specs.Standing.{hold_of};

use au_base::Name;
use au_syntax::{Access, Bind, BorrowMode, Ident, Phase, Stmt};

/// How the open borrow statements on a variable hold it.
#[derive(Clone, Copy)]
pub enum Hold {
    /// Not at all.
    Unlent,
    /// For reading.
    ReadLent,
    /// For writing.
    WriteLent,
    /// Its name is that of another variable there.
    Hidden,
}

/// Whether a name is that of the variable.
pub fn is_named<P: Phase>(x: &Name, name: &Ident<P>) -> bool
    ensures { result ≡ bytes_eq (seen_name P.Phase name.now).name x.now }
{
    P::bytes_of(&name.name) == x.as_bytes()
}

/// How `&`, `&!` and `&~` lend.
pub fn access_of(mode: BorrowMode) -> Access
    ensures { result ≡ access_of mode }
{
    match mode {
        BorrowMode::Read => Access::Read,
        BorrowMode::Write => Access::Write,
        BorrowMode::Reborrow => Access::Write,
    }
}

/// One more borrow statement on the variable.
pub(crate) fn tighter(access: Access, hold: Hold) -> Hold
    ensures { hold_of result ≡ lives.tighter access (hold_of hold) }
{
    match (hold, access) {
        (Hold::Hidden, _) => Hold::Hidden,
        (Hold::WriteLent, _) => Hold::WriteLent,
        (Hold::Unlent, Access::Read) => Hold::ReadLent,
        (Hold::Unlent, Access::Write) => Hold::WriteLent,
        (Hold::ReadLent, Access::Read) => Hold::ReadLent,
        (Hold::ReadLent, Access::Write) => Hold::WriteLent,
    }
}

/// How the variable is held where this name is declared.
pub fn held_beside<P: Phase>(x: &Name, name: &Ident<P>, hold: Hold) -> Hold
    ensures { hold_of result
        ≡ held_from x.now (declared (seen_name P.Phase name.now).name ∷ []) (hold_of hold) }
{
    if is_named(x, name) {
        Hold::Hidden
    } else {
        hold
    }
}

/// How the variable is held where this one is lent.
fn held_lent<P: Phase>(x: &Name, access: Access, variable: &Ident<P>, hold: Hold) -> Hold
    ensures { hold_of result
        ≡ held_from x.now (lent access (seen_name P.Phase variable.now).name ∷ []) (hold_of hold) }
{
    if is_named(x, variable) {
        tighter(access, hold)
    } else {
        hold
    }
}

/// How the variable is held in a borrow statement.
pub fn held_in_borrow<P: Phase>(
    x: &Name,
    access: Access,
    variable: &Ident<P>,
    reference: &Ident<P>,
    hold: Hold,
) -> Hold
    ensures { hold_of result
        ≡ held_from x.now (declared (seen_name P.Phase reference.now).name
        ∷ lent access (seen_name P.Phase variable.now).name ∷ []) (hold_of hold) }
{
    let inside = held_lent(x, access, variable, hold);
    held_beside(x, reference, inside)
}

/// Whether a field is bound to a variable of this name.
fn is_bound<P: Phase>(x: &Name, one: &Bind<P>) -> bool
    ensures { result ≡ bytes_eq (bound_name (seen_bind P.Phase one.now)).name x.now }
{
    match &one.name.alias {
        Some(alias) => is_named(x, alias),
        None => is_named(x, &one.name.name),
    }
}

/// Whether one of these is bound to a variable of this name.
pub(crate) fn binds<P: Phase>(x: &Name, all: &Vec<Bind<P>>) -> bool
    ensures { (h : lives.Hold) → held_from x.now (bound_names (seen_binds P.Phase all.now.items)) h
        ≡ (if result then lives.hidden else h) }
{
    for one in all {
        if is_bound(x, one) {
            return true;
        }
    }
    false
}

/// How the variable is held where these are bound.
pub fn held_beside_binds<P: Phase>(x: &Name, all: &Vec<Bind<P>>, hold: Hold) -> Hold
    ensures { hold_of result
        ≡ held_from x.now (bound_names (seen_binds P.Phase all.now.items)) (hold_of hold) }
{
    if binds(x, all) { Hold::Hidden } else { hold }
}

/// Whether a statement declares a variable of this name for the rest of its block.
#[tactic(auto, using(au_syntax::proofs::StatementLemmas::statement_steps))]
pub(crate) fn declares<P: Phase>(x: &Name, stmt: &Stmt<P>) -> bool
    ensures { (h : lives.Hold) → held_from x.now (declared_by (seen_statement P.Phase stmt.now)) h
        ≡ (if result then lives.hidden else h) }
{
    match stmt {
        Stmt::Let(_, _, name, _, _) => is_named(x, name),
        Stmt::Destructure(_, all, _) => binds(x, all),
        Stmt::Skip(_) => false,
        Stmt::Assign(_, _, _, _) => false,
        Stmt::AssignThrough(_, _, _, _) => false,
        Stmt::If(_, _) => false,
        Stmt::IfElse(_, _, _) => false,
        Stmt::Case(_, _, _) => false,
        Stmt::While(_, _, _) => false,
        Stmt::For(_, _, _, _, _) => false,
        Stmt::Borrow(_, _, _, _, _) => false,
        Stmt::BorrowTyped(_, _, _, _, _, _, _) => false,
        Stmt::Call(_, _) => false,
        Stmt::Return(_, _) => false,
    }
}

/// How the variable is held behind a statement of its block.
pub fn held_after<P: Phase>(x: &Name, stmt: &Stmt<P>, hold: Hold) -> Hold
    ensures { hold_of result
        ≡ held_from x.now (declared_by (seen_statement P.Phase stmt.now)) (hold_of hold) }
{
    if declares(x, stmt) {
        Hold::Hidden
    } else {
        hold
    }
}
