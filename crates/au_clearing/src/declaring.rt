//! What statements and arms declare.

ghost use Rattle.std.specs.Prelude.{◌≡◌, ◌∷◌, [], Bool, OnOk};
ghost use Rattle.au_syntax.specs.Plain.{Bytes, PlainStatements};
ghost use Rattle.au_syntax.specs.Names.{Placed};
ghost use Rattle.au_lives.specs.Lives.{Hold, held_from};
ghost use Rattle.au_lives.specs.Paths.{declared, declared_by, bound_name, bound_names};
ghost use Rattle.au_lives.specs.Scopes.{scope, scopes_after, bound_over};
ghost use Rattle.au_clearing.specs.Dealings.{deal_block, returns_in_block};
ghost use Rattle.au_clearing.specs.Seen.{seen_name, seen_bind, seen_binds, seen_statement};
ghost use Rattle.au_clearing.specs.Deals.{seen_at, Sums, SumsBlock, Piles};

use crate::dealings::Life;
use crate::deals::{Deals, forget, found_or};
use au_base::Memory;
use au_syntax::{Bind, Ident, Phase, Stmt};

/// The name of the variable that a field is bound to.
fn name_of_bind<P: Phase>(bind: &Bind<P>) -> &Ident<P>
    ensures { seen_name P.Phase result.now ≡ bound_name (seen_bind P.Phase bind.now) }
{
    match &bind.name.alias {
        Some(alias) => alias,
        None => &bind.name.name,
    }
}

/// Puts on a pile what is known of a variable whose scope deals so with all variables.
///
/// # Errors
///
/// `Memory` when memory runs out.
pub(crate) fn pile<P: Phase>(
    pile: &mut Vec<Life>,
    name: &Ident<P>,
    deals: &Deals,
) -> Result<(), Memory>
    ensures { (b : PlainStatements) → SumsBlock deals.now b
        → OnOk result (Piles (scope (seen_name P.Phase name.now) b ∷ []) pile.old.items pile.new.items) }
{
    let bytes = P::bytes_of(&name.name);
    let dealings = found_or(&deals.named, bytes, deals.rest);
    let returns = deals.returns;
    pile.push(Life { dealings, returns })?;
    Ok(())
}

/// The same for the variables that fields are bound to.
///
/// # Errors
///
/// `Memory` when memory runs out.
pub(crate) fn pile_binds<P: Phase>(
    pile_of: &mut Vec<Life>,
    binds: &Vec<Bind<P>>,
    deals: &Deals,
) -> Result<(), Memory>
    ensures { (b : PlainStatements) → SumsBlock deals.now b
        → OnOk result
        (Piles (bound_over (seen_binds P.Phase binds.now.items) b) pile_of.old.items pile_of.new.items) }
{
    let mut left = binds.len();
    while left > 0 {
        left -= 1;
        pile(pile_of, name_of_bind(&binds[left]), deals)?;
    }
    Ok(())
}

/// The same for the variables that a statement declares for the rest of its block.
///
/// # Errors
///
/// `Memory` when memory runs out.
pub(crate) fn pile_declared<P: Phase>(
    pile_of: &mut Vec<Life>,
    stmt: &Stmt<P>,
    deals: &Deals,
) -> Result<(), Memory>
    ensures { (b : PlainStatements) → SumsBlock deals.now b
        → OnOk result
        (Piles (scopes_after (seen_statement P.Phase stmt.now) b) pile_of.old.items pile_of.new.items) }
{
    match stmt {
        Stmt::Let(_, _, name, _, _) => pile(pile_of, name, deals),
        Stmt::Destructure(_, binds, _) => pile_binds(pile_of, binds, deals),
        Stmt::Skip(_) => Ok(()),
        Stmt::Assign(_, _, _, _) => Ok(()),
        Stmt::AssignThrough(_, _, _, _) => Ok(()),
        Stmt::If(_, _) => Ok(()),
        Stmt::IfElse(_, _, _) => Ok(()),
        Stmt::Case(_, _, _) => Ok(()),
        Stmt::While(_, _, _) => Ok(()),
        Stmt::For(_, _, _, _, _) => Ok(()),
        Stmt::Borrow(_, _, _, _, _) => Ok(()),
        Stmt::BorrowTyped(_, _, _, _, _, _, _) => Ok(()),
        Stmt::Call(_, _) => Ok(()),
        Stmt::Return(_, _) => Ok(()),
    }
}

/// Forgets the name of a variable that is declared in front of a part.
pub(crate) fn forget_name<P: Phase>(deals: &mut Deals, name: &Ident<P>)
    ensures { Sums deals.new
        (λ x free h. seen_at deals.old x free
        (held_from x (declared (seen_name P.Phase name.now).name ∷ []) h))
        deals.old.returns }
{
    let bytes = P::bytes_of(&name.name);
    forget(deals, bytes);
}

/// Forgets the names of variables that fields are bound to in front of a part.
pub(crate) fn forget_binds<P: Phase>(deals: &mut Deals, binds: &Vec<Bind<P>>)
    ensures { Sums deals.new
        (λ x free h. seen_at deals.old x free
        (held_from x (bound_names (seen_binds P.Phase binds.now.items)) h))
        deals.old.returns }
{
    for one in binds {
        forget_name(deals, name_of_bind(one));
    }
}

/// Forgets the names that a statement declares in front of a part.
pub(crate) fn forget_declared<P: Phase>(deals: &mut Deals, stmt: &Stmt<P>)
    ensures { Sums deals.new
        (λ x free h. seen_at deals.old x free
        (held_from x (declared_by (seen_statement P.Phase stmt.now)) h))
        deals.old.returns }
{
    match stmt {
        Stmt::Let(_, _, name, _, _) => forget_name(deals, name),
        Stmt::Destructure(_, binds, _) => forget_binds(deals, binds),
        Stmt::Skip(_) => {}
        Stmt::Assign(_, _, _, _) => {}
        Stmt::AssignThrough(_, _, _, _) => {}
        Stmt::If(_, _) => {}
        Stmt::IfElse(_, _, _) => {}
        Stmt::Case(_, _, _) => {}
        Stmt::While(_, _, _) => {}
        Stmt::For(_, _, _, _, _) => {}
        Stmt::Borrow(_, _, _, _, _) => {}
        Stmt::BorrowTyped(_, _, _, _, _, _, _) => {}
        Stmt::Call(_, _) => {}
        Stmt::Return(_, _) => {}
    }
}
