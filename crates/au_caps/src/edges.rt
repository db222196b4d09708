//! The graph of what calls what, and who gives birth to what.

ghost use Rattle.std.specs.Prelude.{◌≡◌, ◌<◌, ◌++◌, ◌∷◌, [], IfOk, OnOk, Some, length, map, option_to_list};
ghost use Rattle.std.specs.List.{flat_map};
ghost use Rattle.au_caps_lists.specs.Bodies.{params_of};
ghost use Rattle.au_caps.specs.Calls.{Callee as CalleeSeen, a_birth, a_class, a_method, an_instance};
ghost use Rattle.au_caps.specs.Calls.{calls_of};
ghost use Rattle.au_caps.specs.Keys as keys;
ghost use Rattle.au_caps.specs.Making as making;
ghost use Rattle.au_caps_lists.specs.Views.{body_said, home_said};
ghost use Rattle.au_caps.specs.Views.{Grows, callee_said, keys_in};
ghost use Rattle.au_caps.specs.Webs as spec;
ghost use Rattle.au_caps.specs.Webs.{IsNumber, Node, a_body, a_callee};
ghost use Rattle.au_judged_types.specs.Meanings.{class_in};
ghost use Rattle.au_modules.specs.Slots as slots;
ghost use Rattle.au_sights.specs.contracts.noted.NotedPhase.TheImpl.{ghosts as noted};
ghost use Rattle.au_syntax.specs.Plain.{Bytes};
ghost use Rattle.au_syntax.specs.Views.{constrained, placed, written};
ghost use Rattle.au_types.specs.WrittenViews.{said, sense_in};

use crate::callees::Callee;
use crate::calls::Sight;
use crate::keys::{class_key, function_key, instance_key, key_of, method_key};
use crate::webs::Web;
use au_base::{Memory, Name};
use au_caps_lists::{Body, Home, scope_of};
use au_caps_types::Reaching;
use au_closed_trees::calls_in_block;
use au_imports::Resolved;
use au_instances::Constructor;
use au_sights::Noted;
use au_syntax::{Generic, Ident, Part, TypeText};
use au_types::{DeclAt, Params, Scope, Sense, sense_of};
use std::alloc::Global;

/// The constructor that a name with this sense is as a type.
fn constructor_by(sense: &Sense) -> Option<Constructor>
    ensures { (name : Bytes) → result ≡ making.constructor_in (Some (said name sense.now)) }
{
    match sense {
        Sense::Unit => Some(Constructor::Unit),
        Sense::Bool => Some(Constructor::Bool),
        Sense::Int(kind) => Some(Constructor::Int(*kind)),
        Sense::Param => None,
        Sense::Span => Some(Constructor::Text),
        Sense::Static => None,
        Sense::Region => None,
        Sense::Declared(at, _) => Some(Constructor::Declared(*at)),
        Sense::Class(_) => None,
    }
}

/// The constructor that a name is as a type.
fn constructor_named(scope: &Scope, name: &Name) -> Option<Constructor>
    ensures { result ≡ making.constructor_in (sense_in scope.now name.now) }
{
    match sense_of(scope, name) {
        None => None,
        Some(sense) => constructor_by(&sense),
    }
}

/// The constructor of a written type.
fn constructor_written(scope: &Scope, of: &TypeText) -> Option<Constructor>
    ensures { result ≡ making.constructor_written (sense_in scope.now) (written of.now) }
{
    match of {
        TypeText::Named(name, _) => constructor_named(scope, &name.name),
        TypeText::Reference(_, _, _, _) => None,
    }
}

/// The class that a name with this sense is, if it is one.
fn class_by(sense: &Sense) -> Option<DeclAt>
    ensures { (name : Bytes) → result ≡ class_in (Some (said name sense.now)) }
{
    match sense {
        Sense::Unit => None,
        Sense::Bool => None,
        Sense::Int(_) => None,
        Sense::Param => None,
        Sense::Span => None,
        Sense::Static => None,
        Sense::Region => None,
        Sense::Declared(_, _) => None,
        Sense::Class(at) => Some(*at),
    }
}

/// The class that a name means, if it means one.
fn class_named(scope: &Scope, name: &Name) -> Option<DeclAt>
    ensures { result ≡ making.class_named (sense_in scope.now) name.now }
{
    match sense_of(scope, name) {
        None => None,
        Some(sense) => class_by(&sense),
    }
}

/// Puts a class, if there is one.
fn push_found(made: &mut Vec<DeclAt>, found: Option<DeclAt>) -> Result<(), Memory>
    ensures { OnOk result (made.new.items ≡ made.old.items ++ option_to_list found) }
{
    match found {
        None => Ok(()),
        Some(at) => {
            made.push(at)?;
            Ok(())
        }
    }
}

/// Puts the classes that some names mean.
fn push_classes(
    made: &mut Vec<DeclAt>,
    scope: &Scope,
    names: &Vec<Ident<Noted>>,
) -> Result<(), Memory>
    ensures { OnOk result (made.new.items
        ≡ made.old.items ++ making.classes_named (sense_in scope.now) (map (placed noted) names.now.items)) }
{
    for one in names {
        push_found(made, class_named(scope, &one.name))?;
    }
    Ok(())
}

/// The classes that the constraints of type parameters name.
fn classes_of(
    alloc: Global,
    scope: &Scope,
    generics: &Vec<Generic<Noted>>,
) -> Result<Vec<DeclAt>, Memory>
    ensures { IfOk result (λ made. made.items
        ≡ making.classes_of (sense_in scope.now) (map (constrained noted) generics.now.items)) }
{
    let mut made = Vec::new(alloc);
    for one in generics {
        push_classes(&mut made, scope, &one.classes)?;
    }
    Ok(made)
}

/// Adds that what has a key leads to what has a number.
fn add_from(web: &mut Web, key: Vec<u32>, to: usize) -> Result<(), Memory>
    ensures { OnOk result ((c : CalleeSeen) (b : Node) → key.items ≡ keys.key_of c
        → IsNumber web.old.count (keys_in web.old) b to → Grows ((a_callee c, b) ∷ []) [] web.old web.new) }
{
    let from = web.number(key)?;
    web.add(from, to)?;
    Ok(())
}

/// Adds that what has a number leads to what has a key.
fn add_to(web: &mut Web, from: usize, key: Vec<u32>) -> Result<(), Memory>
    ensures { OnOk result ((a : Node) (c : CalleeSeen) → key.items ≡ keys.key_of c
        → IsNumber web.old.count (keys_in web.old) a from → Grows ((a, a_callee c) ∷ []) [] web.old web.new) }
{
    let to = web.number(key)?;
    web.add(from, to)?;
    Ok(())
}

/// Adds that an instance leads to the class that a constraint of it names.
fn add_constraint(
    alloc: Global,
    web: &mut Web,
    class: DeclAt,
    one: Constructor,
    other: DeclAt,
) -> Result<(), Memory>
    ensures { OnOk result (Grows
        ((a_callee (an_instance class one), a_callee (a_class other)) ∷ []) [] web.old web.new) }
{
    let key = class_key(alloc, other)?;
    let to = web.number(key)?;
    let key = instance_key(alloc, class, one)?;
    add_from(web, key, to)?;
    Ok(())
}

/// Adds that an instance leads to the classes that its constraints name.
fn add_constraints(
    alloc: Global,
    web: &mut Web,
    class: DeclAt,
    one: Constructor,
    others: &[DeclAt],
) -> Result<(), Memory>
    ensures { OnOk result (Grows (spec.constraint_arcs class one others.now) [] web.old web.new) }
{
    for other in others {
        add_constraint(alloc, web, class, one, *other)?;
    }
    Ok(())
}

/// Adds that the instance of a class leads to a method of it, and to the classes that its constraints name.
fn add_instance(
    alloc: Global,
    web: &mut Web,
    class: DeclAt,
    one: Constructor,
    others: &[DeclAt],
    own: usize,
) -> Result<(), Memory>
    requires { own < web.old.count }
    ensures { OnOk result (Grows (spec.instance_arcs own class (Some one) others.now) [] web.old web.new) }
{
    let key = instance_key(alloc, class, one)?;
    add_from(web, key, own)?;
    add_constraints(alloc, web, class, one, others)?;
    Ok(())
}

/// Adds that what stands for the methods of a class leads to one of them.
fn add_method(
    alloc: Global,
    web: &mut Web,
    class: DeclAt,
    name: &Name,
    own: usize,
) -> Result<(), Memory>
    requires { own < web.old.count }
    ensures { OnOk result (Grows
        ((a_callee (a_method class name.now), a_body own) ∷ (a_callee (a_class class), a_body own) ∷ []) []
        web.old web.new) }
{
    let key = method_key(alloc, class, name.as_bytes())?;
    add_from(web, key, own)?;
    let key = class_key(alloc, class)?;
    add_from(web, key, own)?;
    Ok(())
}

/// Adds that what stands for a method of an instance leads to it, where its class is one.
fn add_of_class(
    alloc: Global,
    web: &mut Web,
    body: &Body,
    class: DeclAt,
    one: Option<Constructor>,
    others: &[DeclAt],
    own: usize,
) -> Result<(), Memory>
    requires { own < web.old.count }
    ensures { OnOk result (Grows
        (spec.method_arcs own (body_said body.now) (Some class) one others.now) [] web.old web.new) }
{
    add_method(alloc, web, class, &body.signature.name.name, own)?;
    match one {
        None => Ok(()),
        Some(one) => add_instance(alloc, web, class, one, others, own),
    }
}

/// Adds that what stands for a method of an instance leads to it.
fn add_home(
    alloc: Global,
    web: &mut Web,
    scope: &Scope,
    body: &Body,
    home: &Home,
    own: usize,
) -> Result<(), Memory>
    requires { own < web.old.count }
    ensures { OnOk result (Grows
        (spec.owner_arcs (sense_in scope.now) own (body_said body.now) (Some (home_said home.now))) []
        web.old web.new) }
{
    match class_named(scope, &home.class.name) {
        None => Ok(()),
        Some(class) => {
            let others = classes_of(alloc, scope, body.generics)?;
            let one = constructor_written(scope, home.of);
            add_of_class(alloc, web, body, class, one, others.as_slice(), own)
        }
    }
}

/// A place as it stands in keys, and `Memory` where it fits none.
fn place_number(place: usize) -> Result<u16, Memory>
    ensures { IfOk result (λ same. same ≡ place) }
{
    if place > u16::MAX as usize {
        return Err(Memory);
    }
    Ok(place as u16)
}

/// Adds that what stands for a function leads to it.
fn add_function(alloc: Global, web: &mut Web, body: &Body, own: usize) -> Result<(), Memory>
    requires { own < web.old.count }
    ensures { OnOk result (Grows (spec.function_arcs own (body_said body.now)) [] web.old web.new) }
{
    let place = place_number(body.place)?;
    let key = function_key(alloc, place, body.signature.name.name.as_bytes())?;
    add_from(web, key, own)?;
    Ok(())
}

/// Adds that what stands for a body leads to it.
fn add_owner(
    alloc: Global,
    web: &mut Web,
    scope: &Scope,
    body: &Body,
    own: usize,
) -> Result<(), Memory>
    requires { own < web.old.count }
    ensures { OnOk result (Grows
        (spec.owner_arcs (sense_in scope.now) own (body_said body.now) (body_said body.now).home) []
        web.old web.new) }
{
    match body.home {
        None => add_function(alloc, web, body, own),
        Some(home) => add_home(alloc, web, scope, body, &home, own),
    }
}

/// Adds a birth in a body, if what is born has a head.
fn add_birth(web: &mut Web, reaching: &Reaching, own: usize, at: DeclAt) -> Result<(), Memory>
    ensures { OnOk result (Grows [] (spec.birth_pairs reaching.now own (a_birth at)) web.old web.new) }
{
    match reaching.place(at) {
        None => Ok(()),
        Some(head) => web.bear(head, own),
    }
}

/// Adds that a body leads to what a call in it leads to.
fn add_call(alloc: Global, web: &mut Web, own: usize, one: &Callee) -> Result<(), Memory>
    requires { own < web.old.count }
    ensures { OnOk result (Grows ((a_body own, a_callee (callee_said one.now)) ∷ []) [] web.old web.new) }
{
    let key = key_of(alloc, one)?;
    add_to(web, own, key)?;
    Ok(())
}

/// Adds what a call leads to.
fn add_callee(
    alloc: Global,
    web: &mut Web,
    reaching: &Reaching,
    own: usize,
    one: &Callee,
) -> Result<(), Memory>
    requires { own < web.old.count }
    ensures { OnOk result (Grows (spec.call_arcs own (callee_said one.now))
        (spec.birth_pairs reaching.now own (callee_said one.now)) web.old web.new) }
{
    match one {
        Callee::Birth(at) => add_birth(web, reaching, own, *at),
        Callee::Function(_, _) => add_call(alloc, web, own, one),
        Callee::Method(_, _) => add_call(alloc, web, own, one),
        Callee::Instance(_, _) => add_call(alloc, web, own, one),
        Callee::Class(_) => add_call(alloc, web, own, one),
    }
}

/// Adds what calls lead to.
fn add_callees(
    alloc: Global,
    web: &mut Web,
    reaching: &Reaching,
    own: usize,
    called: &Vec<Callee>,
) -> Result<(), Memory>
    requires { own < web.old.count }
    ensures { OnOk result (Grows (flat_map (spec.call_arcs own) (map callee_said called.now.items))
        (flat_map (spec.birth_pairs reaching.now own) (map callee_said called.now.items)) web.old web.new) }
{
    for one in called {
        add_callee(alloc, web, reaching, own, one)?;
    }
    Ok(())
}

/// What the calls in a body lead to.
fn calls_in(alloc: Global, program: &Resolved, body: &Body) -> Result<Vec<Callee>, Memory>
    requires { body.now.place < length (slots.modules program.now) }
    ensures { IfOk result (λ called. map callee_said called.items
        ≡ calls_of (slots.modules program.now) (body_said body.now)) }
{
    let names = program.names(body.place, Part::Body);
    calls_in_block(alloc, &Sight { program, names }, body.block)
}

/// Adds the body of a number with what it calls.
pub(crate) fn add_body(
    alloc: Global,
    web: &mut Web,
    program: &Resolved,
    reaching: &Reaching,
    params: &Params,
    body: &Body,
    own: usize,
) -> Result<(), Memory>
    requires place { body.now.place < length (slots.modules program.now) }
    requires params { params.now ≡ params_of (body_said body.now) }
    requires own { own < web.old.count }
    ensures { OnOk result (Grows (spec.body_arcs (slots.modules program.now) own (body_said body.now))
        (flat_map (spec.birth_pairs reaching.now own)
        (calls_of (slots.modules program.now) (body_said body.now))) web.old web.new) }
{
    let scope = scope_of(program, params, body.place);
    add_owner(alloc, web, &scope, body, own)?;
    let called = calls_in(alloc, program, body)?;
    add_callees(alloc, web, reaching, own, &called)?;
    Ok(())
}
