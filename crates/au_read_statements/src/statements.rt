//! Statements and blocks.

ghost use Rattle.std.specs.Prelude.{◌≡◌, ◌∷◌, [], cond, drop, map};
ghost use Rattle.au_base.specs.declared.tokens.Keyword.TheVariants as keyword;
ghost use Rattle.au_base.specs.declared.tokens.Sign.TheVariants as sign;
ghost use Rattle.au_base.specs.declared.tokens.What.TheVariants as what;
ghost use Rattle.au_read_expressions.specs.ExpressionReading.{call_at, expression_at};
ghost use Rattle.au_read_statements.specs.Seen.{arm_seen, branch_seen};
ghost use Rattle.au_read_statements.specs.StatementReading as spec;
ghost use Rattle.au_read_statements.specs.StatementReading.{block_at};
ghost use Rattle.au_read_expressions.specs.Bounds.{usual};
ghost use Rattle.au_read_expressions.specs.Reading.{Gives, begins_with, closed, repeated};
ghost use Rattle.au_syntax.specs.Views as views;
ghost use Rattle.au_syntax.specs.declared.types.Access.TheVariants as access;

use crate::first::{begins, closing, else_if, too_deep};
use crate::heads::{arm_head, borrow_end, borrow_head, for_head, typed_head, value_between};
use crate::simple::{declare, let_statement, named_statement, return_statement, skip};
use au_base::{Keyword, Pos, Sign, Token, What};
use au_read_expressions::{Expected, Stop, after, expect, is_sign, is_word, place, stop_before};
use au_syntax::{Access, Arm, Binding, Block, Branch, Parsed, Phase, Stmt};
use std::alloc::Global;

/// Reads a block where so many levels of nesting are left for its statements.
///
/// # Errors
///
/// `Fault::Syntax` at the first token that continues no statement, and `Fault::Passed` where a limit
/// is passed.
#[tactic(auto, unfolding(crate::specs::StatementReading::block_at), using(crate::proofs::CodeLists::list_steps))]
#[cycle(statements)]
pub fn block(
    alloc: Global,
    levels: u32,
    tokens: &[Token],
) -> Result<(Block<Parsed>, &[Token]), Stop>
    ensures { Gives (λ x. (views.block ⟦<Parsed as Phase>⟧ x.0, x.1.now)) result
        (block_at usual levels tokens.now) }
{
    let (statements, rest) = several(alloc, levels, tokens)?;
    Ok((Block { statements }, rest))
}

/// Reads statements, up to a token with which none begins.
#[cycle(statements)]
fn several(
    alloc: Global,
    levels: u32,
    tokens: &[Token],
) -> Result<(Vec<Stmt<Parsed>>, &[Token]), Stop>
    ensures { Gives (λ x. (map (views.statement ⟦<Parsed as Phase>⟧) x.0.items, x.1.now)) result
        (repeated spec.begins_statement (spec.statement_at usual levels) tokens.now) }
{
    let mut statements = Vec::new(alloc);
    let mut rest = tokens;
    for _ in 0..tokens.len() {
        if !begins(rest) {
            return Ok((statements, rest));
        }
        let (one, next) = statement(alloc, levels, rest)?;
        statements.push(one)?;
        rest = next;
    }
    Ok((statements, rest))
}

/// Reads a statement where so many levels are left.
#[tactic(auto, using(crate::proofs::CodeLists::level_steps))]
#[cycle(statements)]
fn statement(alloc: Global, levels: u32, tokens: &[Token]) -> Result<(Stmt<Parsed>, &[Token]), Stop>
    ensures { Gives (λ x. (views.statement ⟦<Parsed as Phase>⟧ x.0, x.1.now)) result
        (spec.statement_at usual levels tokens.now) }
{
    if levels == 0 {
        return Err(too_deep(tokens));
    }
    statement_with(alloc, levels - 1, tokens)
}

/// Reads a statement where so many levels are left for what it holds.
#[tactic(auto, unfolding(crate::specs::StatementReading::statement_with, crate::specs::StatementReading::skip_at))]
#[cycle(statements)]
fn statement_with(
    alloc: Global,
    levels: u32,
    tokens: &[Token],
) -> Result<(Stmt<Parsed>, &[Token]), Stop>
    ensures { Gives (λ x. (views.statement ⟦<Parsed as Phase>⟧ x.0, x.1.now)) result
        (spec.statement_with usual (expression_at usual levels) (call_at usual levels) (block_at usual levels)
        tokens.now) }
{
    match tokens {
        [] => Err(stop_before(tokens)),
        [first, ..] => match &first.what {
            What::Word(Keyword::KwSkip) => skip(tokens),
            What::Word(Keyword::KwLet) => let_statement(alloc, levels, tokens),
            What::Word(Keyword::KwVar) => declare(
                alloc,
                levels,
                Keyword::KwVar,
                Binding::Var,
                tokens,
            ),
            What::Word(Keyword::KwIf) => conditional(alloc, levels, tokens),
            What::Word(Keyword::KwCase) => case(alloc, levels, tokens),
            What::Word(Keyword::KwWhile) => while_loop(alloc, levels, tokens),
            What::Word(Keyword::KwFor) => for_loop(alloc, levels, tokens),
            What::Word(Keyword::KwBorrow) => borrow_statement(alloc, levels, tokens),
            What::Word(Keyword::KwReturn) => return_statement(alloc, levels, tokens),
            What::Name(_) => named_statement(alloc, levels, tokens),
            _ => Err(stop_before(tokens)),
        },
    }
}

/// Reads a conditional.
#[tactic(auto, unfolding(crate::specs::StatementReading::conditional_with))]
#[cycle(statements)]
fn conditional(
    alloc: Global,
    levels: u32,
    tokens: &[Token],
) -> Result<(Stmt<Parsed>, &[Token]), Stop>
    ensures { Gives (λ x. (views.statement ⟦<Parsed as Phase>⟧ x.0, x.1.now)) result
        (spec.conditional_with usual (expression_at usual levels) (call_at usual levels)
        (block_at usual levels) tokens.now) }
{
    let (tests, rest) = branches(alloc, levels, tokens)?;
    if is_word(Keyword::KwElse, rest) {
        let (last, rest) = block(alloc, levels, after(rest))?;
        let rest = closing(Keyword::KwIf, rest)?;
        return Ok((Stmt::IfElse(place(tokens), tests, last), rest));
    }
    let rest = closing(Keyword::KwIf, rest)?;
    Ok((Stmt::If(place(tokens), tests), rest))
}

/// Reads branches with `else` between, as long as `else if` follows.
#[tactic(auto, unfolding(crate::specs::StatementReading::branches_with), using(au_read_expressions::proofs::Loops::with_none))]
#[cycle(statements)]
fn branches(
    alloc: Global,
    levels: u32,
    tokens: &[Token],
) -> Result<(Vec<Branch<Parsed>>, &[Token]), Stop>
    ensures { Gives (λ x. (map (branch_seen ⟦<Parsed as Phase>⟧) x.0.items, x.1.now)) result
        (spec.branches_with usual (expression_at usual levels) (call_at usual levels) (block_at usual levels)
        tokens.now) }
{
    let mut tests = Vec::new(alloc);
    let mut rest = tokens;
    for _ in 0..tokens.len() {
        let (test, next) = branch(alloc, levels, rest)?;
        tests.push(test)?;
        if !else_if(next) {
            return Ok((tests, next));
        }
        rest = after(next);
    }
    Err(stop_before(rest))
}

/// Reads `if`, a test and its block.
#[tactic(auto, using(crate::proofs::BlockHeads::branch_said))]
#[cycle(statements)]
fn branch(alloc: Global, levels: u32, tokens: &[Token]) -> Result<(Branch<Parsed>, &[Token]), Stop>
    ensures { Gives (λ x. (branch_seen ⟦<Parsed as Phase>⟧ x.0, x.1.now)) result
        (spec.branch_with usual (expression_at usual levels) (call_at usual levels) (block_at usual levels)
        tokens.now) }
{
    let (test, rest) = value_between(alloc, levels, Keyword::KwIf, Keyword::KwThen, tokens)?;
    match block(alloc, levels, rest) {
        Ok((block, rest)) => Ok((Branch { test, block }, rest)),
        Err(stop) => Err(stop),
    }
}

/// Reads a case and its arms.
#[tactic(auto, using(crate::proofs::BlockHeads::case_said))]
#[cycle(statements)]
fn case(alloc: Global, levels: u32, tokens: &[Token]) -> Result<(Stmt<Parsed>, &[Token]), Stop>
    ensures { Gives (λ x. (views.statement ⟦<Parsed as Phase>⟧ x.0, x.1.now)) result
        (spec.case_with usual (expression_at usual levels) (call_at usual levels) (block_at usual levels)
        tokens.now) }
{
    let (value, rest) = value_between(alloc, levels, Keyword::KwCase, Keyword::KwOf, tokens)?;
    match closed_arms(alloc, levels, rest) {
        Ok((cases, rest)) => Ok((Stmt::Case(place(tokens), value, cases), rest)),
        Err(stop) => Err(stop),
    }
}

/// Reads arms, and the end of their statement.
#[cycle(statements)]
fn closed_arms(
    alloc: Global,
    levels: u32,
    tokens: &[Token],
) -> Result<(Vec<Arm<Parsed>>, &[Token]), Stop>
    ensures { Gives (λ x. (map arm_seen x.0.items, x.1.now)) result
        (closed (what.Word keyword.KwEnd ∷ what.Word keyword.KwCase ∷ what.Sign sign.Semicolon ∷ [])
        (spec.arms_with usual (expression_at usual levels) (call_at usual levels) (block_at usual levels))
        tokens.now) }
{
    let (cases, rest) = arms(alloc, levels, tokens)?;
    match closing(Keyword::KwCase, rest) {
        Ok(rest) => Ok((cases, rest)),
        Err(stop) => Err(stop),
    }
}

/// Reads a block, and the end of its statement.
#[cycle(statements)]
fn closed_block(
    alloc: Global,
    levels: u32,
    word: Keyword,
    tokens: &[Token],
) -> Result<(Block<Parsed>, &[Token]), Stop>
    ensures { Gives (λ x. (views.block ⟦<Parsed as Phase>⟧ x.0, x.1.now)) result
        (closed (what.Word keyword.KwEnd ∷ what.Word word ∷ what.Sign sign.Semicolon ∷ [])
        (block_at usual levels) tokens.now) }
{
    let (block, rest) = block(alloc, levels, tokens)?;
    match closing(word, rest) {
        Ok(rest) => Ok((block, rest)),
        Err(stop) => Err(stop),
    }
}

/// Reads arms, as long as `when` follows.
#[tactic(auto, unfolding(crate::specs::StatementReading::arms_with), using(au_read_expressions::proofs::Loops::with_none))]
#[cycle(statements)]
fn arms(alloc: Global, levels: u32, tokens: &[Token]) -> Result<(Vec<Arm<Parsed>>, &[Token]), Stop>
    ensures { Gives (λ x. (map arm_seen x.0.items, x.1.now)) result
        (spec.arms_with usual (expression_at usual levels) (call_at usual levels) (block_at usual levels)
        tokens.now) }
{
    let mut cases = Vec::new(alloc);
    let mut rest = tokens;
    for _ in 0..tokens.len() {
        if !is_word(Keyword::KwWhen, rest) {
            return Ok((cases, rest));
        }
        let (one, next) = arm(alloc, levels, rest)?;
        cases.push(one)?;
        rest = next;
    }
    Ok((cases, rest))
}

/// Reads an arm.
#[tactic(auto, using(crate::proofs::BlockHeads::arm_said))]
#[cycle(statements)]
fn arm(alloc: Global, levels: u32, tokens: &[Token]) -> Result<(Arm<Parsed>, &[Token]), Stop>
    ensures { Gives (λ x. (arm_seen x.0, x.1.now)) result
        (spec.arm_with usual (expression_at usual levels) (call_at usual levels) (block_at usual levels)
        tokens.now) }
{
    let (head, rest) = arm_head(alloc, tokens)?;
    let at = place(tokens);
    match block(alloc, levels, rest) {
        Ok((block, rest)) => Ok((
            Arm {
                at,
                case: head.case,
                binds: head.binds,
                block,
            },
            rest,
        )),
        Err(stop) => Err(stop),
    }
}

/// Reads a loop with a test.
#[tactic(auto, using(crate::proofs::BlockHeads::while_said))]
#[cycle(statements)]
fn while_loop(
    alloc: Global,
    levels: u32,
    tokens: &[Token],
) -> Result<(Stmt<Parsed>, &[Token]), Stop>
    ensures { Gives (λ x. (views.statement ⟦<Parsed as Phase>⟧ x.0, x.1.now)) result
        (spec.while_with usual (expression_at usual levels) (call_at usual levels) (block_at usual levels)
        tokens.now) }
{
    let (test, rest) = value_between(alloc, levels, Keyword::KwWhile, Keyword::KwDo, tokens)?;
    match closed_block(alloc, levels, Keyword::KwWhile, rest) {
        Ok((body, rest)) => Ok((Stmt::While(place(tokens), test, body), rest)),
        Err(stop) => Err(stop),
    }
}

/// Reads a loop over numbers.
#[tactic(auto, using(crate::proofs::BlockHeads::for_said))]
#[cycle(statements)]
fn for_loop(alloc: Global, levels: u32, tokens: &[Token]) -> Result<(Stmt<Parsed>, &[Token]), Stop>
    ensures { Gives (λ x. (views.statement ⟦<Parsed as Phase>⟧ x.0, x.1.now)) result
        (spec.for_with usual (expression_at usual levels) (call_at usual levels) (block_at usual levels)
        tokens.now) }
{
    let (head, rest) = for_head(alloc, levels, tokens)?;
    let at = place(tokens);
    match closed_block(alloc, levels, Keyword::KwFor, rest) {
        Ok((body, rest)) => Ok((
            Stmt::For(at, head.variable, head.first, head.last, body),
            rest,
        )),
        Err(stop) => Err(stop),
    }
}

/// Reads what begins with `borrow`.
#[cycle(statements)]
fn borrow_statement(
    alloc: Global,
    levels: u32,
    tokens: &[Token],
) -> Result<(Stmt<Parsed>, &[Token]), Stop>
    ensures { Gives (λ x. (views.statement ⟦<Parsed as Phase>⟧ x.0, x.1.now)) result
        (cond (begins_with (what.Sign sign.Exclamation) (drop 1 tokens.now))
        (spec.borrow_in_with usual (expression_at usual levels) (call_at usual levels) (block_at usual levels)
        access.Write tokens.now)
        (cond (begins_with (what.Sign sign.Colon) (drop 1 (drop 1 tokens.now)))
        (spec.borrow_typed_with usual (expression_at usual levels) (call_at usual levels)
        (block_at usual levels) tokens.now)
        (spec.borrow_in_with usual (expression_at usual levels) (call_at usual levels) (block_at usual levels)
        access.Read tokens.now))) }
{
    let second = after(tokens);
    if is_sign(Sign::Exclamation, second) {
        return borrow_in(alloc, levels, Access::Write, tokens);
    }
    if is_sign(Sign::Colon, after(second)) {
        return borrow_typed(alloc, levels, tokens);
    }
    borrow_in(alloc, levels, Access::Read, tokens)
}

/// Reads a borrow in a region.
#[tactic(auto, using(crate::proofs::BlockHeads::borrow_in_said))]
#[cycle(statements)]
fn borrow_in(
    alloc: Global,
    levels: u32,
    access: Access,
    tokens: &[Token],
) -> Result<(Stmt<Parsed>, &[Token]), Stop>
    ensures { Gives (λ x. (views.statement ⟦<Parsed as Phase>⟧ x.0, x.1.now)) result
        (spec.borrow_in_with usual (expression_at usual levels) (call_at usual levels) (block_at usual levels)
        access tokens.now) }
{
    let (names, rest) = borrow_head(alloc, access, tokens)?;
    let at = place(tokens);
    match borrowed_block(alloc, levels, rest) {
        Ok((body, end, rest)) => Ok((Stmt::Borrow(at, access, names, body, end), rest)),
        Err(stop) => Err(stop),
    }
}

/// Reads a borrow with the type of its reference.
#[tactic(auto, using(crate::proofs::BlockHeads::borrow_typed_said))]
#[cycle(statements)]
fn borrow_typed(
    alloc: Global,
    levels: u32,
    tokens: &[Token],
) -> Result<(Stmt<Parsed>, &[Token]), Stop>
    ensures { Gives (λ x. (views.statement ⟦<Parsed as Phase>⟧ x.0, x.1.now)) result
        (spec.borrow_typed_with usual (expression_at usual levels) (call_at usual levels)
        (block_at usual levels) tokens.now) }
{
    let (head, rest) = typed_head(alloc, tokens)?;
    let at = place(tokens);
    let mode = head.mode;
    match borrowed_block(alloc, levels, rest) {
        Ok((body, end, rest)) => Ok((
            Stmt::BorrowTyped(at, head.reference, head.of, mode, head.variable, body, end),
            rest,
        )),
        Err(stop) => Err(stop),
    }
}

/// Reads the block of a borrow, and the place of its `end`.
#[tactic(auto, unfolding(crate::specs::StatementReading::borrowed_block))]
#[cycle(statements)]
fn borrowed_block(
    alloc: Global,
    levels: u32,
    tokens: &[Token],
) -> Result<(Block<Parsed>, Pos, &[Token]), Stop>
    ensures { Gives (λ x. ((views.block ⟦<Parsed as Phase>⟧ x.0, x.1), x.2.now)) result
        (spec.borrowed_block usual (expression_at usual levels) (call_at usual levels) (block_at usual levels)
        tokens.now) }
{
    let rest = expect(&[Expected::Word(Keyword::KwDo)], tokens)?;
    let (body, rest) = block(alloc, levels, rest)?;
    match borrow_end(rest) {
        Ok((end, rest)) => Ok((body, end, rest)),
        Err(stop) => Err(stop),
    }
}
