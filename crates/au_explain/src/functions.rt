//! The lives of the variables of functions and methods.

ghost use Rattle.std.specs.Prelude.{◌≡◌, ◌++◌, ◌∷◌, [], IfOk, OnOk, map};
ghost use Rattle.std.specs.Option.{option_map};
ghost use Rattle.au_typing.specs.Bodies.{body_scope};
ghost use Rattle.au_explain.specs.Programs as spec;
ghost use Rattle.au_explain.specs.Said.{block_said, generics_said, methods_said, parameters_said};
ghost use Rattle.au_explain.specs.Variables as variables;
ghost use Rattle.au_explain.specs.Variables.{told};
ghost use Rattle.au_noting.specs.Scopes.{scope_said};
ghost use Rattle.au_sights.specs.Sights.{outside_seen};
ghost use Rattle.au_syntax.specs.contracts.parsed.ParsedPhase.TheImpl.{ghosts as parsed};
ghost use Rattle.au_syntax.specs.Views.{declaration, header};

use crate::listing::push_block;
use crate::variables::push_parameters;
use crate::{FunctionLives, VariableLives};
use au_base::{Memory, Name, Sequence, Text};
use au_noting::{Fault, Scope};
use au_noting_programs::bodies;
use au_sights::Surroundings;
use au_syntax::{Block, Decl, Generic, Method, Parsed, Signature};
use std::alloc::Global;

/// What is in scope in a body, if the types of its header are well formed.
fn body_scope<'a>(
    alloc: Global,
    outside: &Surroundings<'a>,
    generics: &Vec<Generic<Parsed>>,
    signature: &Signature<Parsed>,
) -> Result<Option<Scope<'a>>, Memory>
    ensures { IfOk result (λ found. option_map scope_said found
        ≡ told (body_scope (outside_seen outside.now) (generics_said generics.now.items)
        (header parsed signature.now))) }
{
    match bodies::body_scope(alloc, outside, generics, signature) {
        Ok(scope) => Ok(Some(scope)),
        Err(Fault::Why(_)) => Ok(None),
        Err(Fault::Limit(_)) => Ok(None),
        Err(Fault::Memory) => Err(Memory),
    }
}

/// Puts the lives of parameters and of the variables of a body.
fn push_all(
    alloc: Global,
    scope: &mut Scope,
    signature: &Signature<Parsed>,
    body: &Block<Parsed>,
    made: &mut Vec<VariableLives>,
) -> Result<(), Memory>
    ensures { OnOk result (made.new.items ≡ made.old.items
        ++ variables.listed_of (parameters_said signature.now.parameters.items) (block_said body.now)
        (scope_said scope.old)) }
{
    push_parameters(
        alloc,
        scope,
        &signature.parameters,
        body.statements.as_slice(),
        made,
    )?;
    push_block(alloc, scope, body, made)
}

/// Puts the lives of the variables of a function or method.
fn push_function_variables(
    alloc: Global,
    outside: &Surroundings,
    generics: &Vec<Generic<Parsed>>,
    signature: &Signature<Parsed>,
    body: &Block<Parsed>,
    made: &mut Vec<VariableLives>,
) -> Result<(), Memory>
    ensures { OnOk result (made.new.items ≡ made.old.items
        ++ variables.variables_of (outside_seen outside.now) (generics_said generics.now.items)
        (header parsed signature.now) (block_said body.now)) }
{
    let found = body_scope(alloc, outside, generics, signature)?;
    match found {
        Some(mut scope) => push_all(alloc, &mut scope, signature, body, made),
        None => Ok(()),
    }
}

/// The lives of the variables of a function or method.
fn variables_of(
    alloc: Global,
    outside: &Surroundings,
    generics: &Vec<Generic<Parsed>>,
    signature: &Signature<Parsed>,
    body: &Block<Parsed>,
) -> Result<Sequence<VariableLives>, Memory>
    ensures { IfOk result (λ made. made ≡ variables.variables_of (outside_seen outside.now)
        (generics_said generics.now.items) (header parsed signature.now) (block_said body.now)) }
{
    let mut made = Vec::new(alloc);
    push_function_variables(alloc, outside, generics, signature, body, &mut made)?;
    Ok(Sequence::from_vec(made))
}

/// The name of a function or method of a module: the module's name, a colon and its own.
fn full_name(alloc: Global, owner: &Name, name: &Name) -> Result<Text, Memory>
    ensures { IfOk result (λ text. text ≡ owner.now ++ 58 ∷ name.now) }
{
    let mut text = Text::copy_of(alloc, owner.as_bytes())?;
    text.append(b":")?;
    text.append(name.as_bytes())?;
    Ok(text)
}

/// The lives of a function or method of a module.
fn function_lives(
    alloc: Global,
    outside: &Surroundings,
    owner: &Name,
    generics: &Vec<Generic<Parsed>>,
    signature: &Signature<Parsed>,
    body: &Block<Parsed>,
) -> Result<FunctionLives, Memory>
    ensures { IfOk result (λ made. made ≡ spec.function_lives (outside_seen outside.now) owner.now
        (generics_said generics.now.items) (header parsed signature.now) (block_said body.now)) }
{
    let name = full_name(alloc, owner, &signature.name.name)?;
    let variables = variables_of(alloc, outside, generics, signature, body)?;
    Ok(FunctionLives { name, variables })
}

/// Puts the lives of a function or method of a module.
fn push_function(
    alloc: Global,
    outside: &Surroundings,
    owner: &Name,
    generics: &Vec<Generic<Parsed>>,
    signature: &Signature<Parsed>,
    body: &Block<Parsed>,
    made: &mut Vec<FunctionLives>,
) -> Result<(), Memory>
    ensures { OnOk result (made.new.items ≡ made.old.items
        ++ spec.function_lives (outside_seen outside.now) owner.now
        (generics_said generics.now.items) (header parsed signature.now) (block_said body.now) ∷ []) }
{
    let one = function_lives(alloc, outside, owner, generics, signature, body)?;
    made.push(one)?;
    Ok(())
}

/// Puts the lives of the methods of an instance.
fn push_methods(
    alloc: Global,
    outside: &Surroundings,
    owner: &Name,
    generics: &Vec<Generic<Parsed>>,
    methods: &Vec<Method<Parsed>>,
    made: &mut Vec<FunctionLives>,
) -> Result<(), Memory>
    ensures { OnOk result (made.new.items ≡ made.old.items
        ++ map (spec.method_lives (outside_seen outside.now) owner.now (generics_said generics.now.items))
        (methods_said methods.now.items)) }
{
    for one in methods {
        push_function(
            alloc,
            outside,
            owner,
            generics,
            &one.signature,
            &one.body,
            made,
        )?;
    }
    Ok(())
}

/// Puts the lives of a declaration of a module.
pub(crate) fn push_declaration(
    alloc: Global,
    outside: &Surroundings,
    owner: &Name,
    decl: &Decl<Parsed>,
    made: &mut Vec<FunctionLives>,
) -> Result<(), Memory>
    ensures { OnOk result (made.new.items ≡ made.old.items
        ++ spec.declaration_lives (outside_seen outside.now) owner.now (declaration parsed decl.now)) }
{
    match decl {
        Decl::FunctionBody(_, generics, signature, body, _) => {
            push_function(alloc, outside, owner, generics, signature, body, made)
        }
        Decl::InstanceBody(_, generics, _, _, methods) => {
            push_methods(alloc, outside, owner, generics, methods, made)
        }
        Decl::Constant(_, _, _) => Ok(()),
        Decl::Opaque(_, _, _, _) => Ok(()),
        Decl::Record(_, _, _, _, _) => Ok(()),
        Decl::Union(_, _, _, _, _) => Ok(()),
        Decl::Function(_, _, _) => Ok(()),
        Decl::Class(_, _, _, _) => Ok(()),
        Decl::Instance(_, _, _, _) => Ok(()),
        Decl::ConstantBody(_, _, _, _) => Ok(()),
    }
}
