//! How deep statements, declarations and modules are nested.
//!
//! A whole file is far within what can be counted; a deeper tree is counted up to 2^32 - 1.

ghost use Rattle.std.specs.Prelude.{◌≡◌, ◌+◌, max, map};
ghost use Rattle.au_syntax.specs.Views.{expression, statement, block, branch_all, arm_all, method_body};
ghost use Rattle.au_syntax.specs.Views.{declaration, module_tree};
ghost use Rattle.au_syntax.specs.Plain.{plain_expression, plain_statement, plain_statements, plain_branches};
ghost use Rattle.au_syntax.specs.Plain.{plain_arms, plain_method, plain_declaration, plain_module};
ghost use Rattle.au_syntax.specs.Depths as spec;
ghost use Rattle.au_syntax.specs.Depths.{counted, greatest};

use au_syntax::depths::expression_depth;
use au_syntax::{Arm, Block, Branch, Decl, Method, Module, Phase, Stmt};

/// One more.
fn one_more(depth: u32) -> u32
    ensures { result ≡ counted (1 + depth) }
{
    depth.saturating_add(1)
}

/// The greater of two.
fn deeper(one: u32, other: u32) -> u32
    ensures { result ≡ max one other }
{
    if one < other { other } else { one }
}

/// The nesting of a statement.
#[cycle(statement_depth)]
fn statement_depth<P: Phase>(stmt: &Stmt<P>) -> u32
    ensures { result
        ≡ counted (spec.statement_depth (plain_statement P.name_bytes (statement P.Phase stmt.now))) }
{
    match stmt {
        Stmt::Skip(_) => 1,
        Stmt::Let(_, _, _, _, expr) => one_more(expression_depth(expr)),
        Stmt::Destructure(_, _, expr) => one_more(expression_depth(expr)),
        Stmt::Assign(_, _, _, expr) => one_more(expression_depth(expr)),
        Stmt::AssignThrough(_, _, _, expr) => one_more(expression_depth(expr)),
        Stmt::If(_, branches) => one_more(branches_depth(branches)),
        Stmt::IfElse(_, branches, block) => {
            one_more(deeper(branches_depth(branches), block_depth(block)))
        }
        Stmt::Case(_, expr, arms) => one_more(deeper(expression_depth(expr), arms_depth(arms))),
        Stmt::While(_, test, block) => {
            one_more(deeper(expression_depth(test), block_depth(block)))
        }
        Stmt::For(_, _, first, last, block) => {
            let inner = deeper(expression_depth(last), block_depth(block));
            one_more(deeper(expression_depth(first), inner))
        }
        Stmt::Borrow(_, _, _, block, _) => one_more(block_depth(block)),
        Stmt::BorrowTyped(_, _, _, _, _, block, _) => one_more(block_depth(block)),
        Stmt::Call(_, expr) => one_more(expression_depth(expr)),
        Stmt::Return(_, expr) => one_more(expression_depth(expr)),
    }
}

/// The nesting of the deepest statement of a block, 0 where there is none.
#[cycle(statement_depth)]
fn block_depth<P: Phase>(body: &Block<P>) -> u32
    ensures { result ≡ counted (spec.block_depth (plain_statements P.name_bytes (block P.Phase body.now))) }
{
    let mut deepest = 0;
    for one in &body.statements {
        let depth = statement_depth(one);
        deepest = deeper(deepest, depth);
    }
    deepest
}

/// The nesting of the deepest of some branches.
#[cycle(statement_depth)]
fn branches_depth<P: Phase>(branches: &Vec<Branch<P>>) -> u32
    ensures { result
        ≡ counted (spec.branches_depth (plain_branches P.name_bytes
        (branch_all P.Phase branches.now.items))) }
{
    let mut deepest = 0;
    for one in branches {
        let depth = branch_depth(one);
        deepest = deeper(deepest, depth);
    }
    deepest
}

/// The nesting of the deepest of some arms.
#[cycle(statement_depth)]
fn arms_depth<P: Phase>(arms: &Vec<Arm<P>>) -> u32
    ensures { result ≡ counted (spec.arms_depth (plain_arms P.name_bytes (arm_all P.Phase arms.now.items))) }
{
    let mut deepest = 0;
    for one in arms {
        let depth = arm_depth(one);
        deepest = deeper(deepest, depth);
    }
    deepest
}

/// The nesting of a branch: of its test and its block.
#[cycle(statement_depth)]
fn branch_depth<P: Phase>(branch: &Branch<P>) -> u32
    ensures { result
        ≡ counted (max (spec.expression_depth (plain_expression P.name_bytes
        (expression P.Phase branch.now.test.value)))
        (spec.block_depth (plain_statements P.name_bytes (block P.Phase branch.now.block)))) }
{
    deeper(expression_depth(&branch.test), block_depth(&branch.block))
}

/// The nesting of an arm, which is that of its block.
#[cycle(statement_depth)]
fn arm_depth<P: Phase>(arm: &Arm<P>) -> u32
    ensures { result
        ≡ counted (spec.block_depth (plain_statements P.name_bytes (block P.Phase arm.now.block))) }
{
    block_depth(&arm.block)
}

/// The nesting of the deepest of some methods.
fn methods_depth<P: Phase>(methods: &Vec<Method<P>>) -> u32
    ensures { result
        ≡ counted (greatest spec.method_depth (map (plain_method P.name_bytes) (map
        (method_body P.Phase) methods.now.items))) }
{
    let mut deepest = 0;
    for one in methods {
        let depth = block_depth(&one.body);
        deepest = deeper(deepest, depth);
    }
    deepest
}

/// The nesting of a declaration, which is no node itself.
fn declaration_depth<P: Phase>(decl: &Decl<P>) -> u32
    ensures { result
        ≡ counted (spec.declaration_depth (plain_declaration P.name_bytes (declaration P.Phase decl.now))) }
{
    match decl {
        Decl::Constant(_, _, _) => 0,
        Decl::Opaque(_, _, _, _) => 0,
        Decl::Record(_, _, _, _, _) => 0,
        Decl::Union(_, _, _, _, _) => 0,
        Decl::Function(_, _, _) => 0,
        Decl::Class(_, _, _, _) => 0,
        Decl::Instance(_, _, _, _) => 0,
        Decl::ConstantBody(_, _, _, expr) => expression_depth(expr),
        Decl::FunctionBody(_, _, _, body, _) => block_depth(body),
        Decl::InstanceBody(_, _, _, _, methods) => methods_depth(methods),
    }
}

/// The nesting of a module: that of its deepest declaration.
pub(crate) fn module_depth<P: Phase>(tree: &Module<P>) -> u32
    ensures { result
        ≡ counted (spec.module_depth (plain_module P.name_bytes (module_tree P.Phase tree.now))) }
{
    let mut deepest = 0;
    for one in &tree.declarations {
        let depth = declaration_depth(one);
        deepest = deeper(deepest, depth);
    }
    deepest
}
