//! Declarations of the old phase as those of the new one.

ghost use Rattle.std.specs.Prelude.{◌≡◌, IfOk};
ghost use Rattle.au_syntax.specs.Modules.{InUniverse, Constrained, Header, Variant, MethodBody, Declaration};
ghost use Rattle.au_syntax.specs.Views.{in_universe, constrained, header, variant, method_body, declaration};
ghost use Rattle.au_mapping.specs.Seen.{before, after};

use crate::parts::{Part, walked_four, walked_three, walked_two};
use crate::walks::Walk;
use au_base::Memory;
use au_syntax::{Decl, Generic, Method, Phase, Signature, TypeParameter, UnionCase};
use std::alloc::Global;

impl<P: Phase, Q: Phase, W: Walk<P, Q>> Part<Q, W> for TypeParameter<P> {
    type New = TypeParameter<Q>;

    ghost Kept = { InUniverse W.KeptName };

    ghost old = { in_universe (before W.Walk) };

    ghost new = { in_universe (after W.Walk) };

    fn walked(&self, alloc: Global, walk: &mut W) -> Result<TypeParameter<Q>, Memory> {
        let name = self.name.walked(alloc, walk)?;
        let universe = self.universe;
        Ok(TypeParameter { name, universe })
    }
}

impl<P: Phase, Q: Phase, W: Walk<P, Q>> Part<Q, W> for Generic<P> {
    type New = Generic<Q>;

    ghost Kept = { Constrained W.KeptName };

    ghost old = { constrained (before W.Walk) };

    ghost new = { constrained (after W.Walk) };

    fn walked(&self, alloc: Global, walk: &mut W) -> Result<Generic<Q>, Memory> {
        let (parameter, classes) = walked_two(alloc, &self.parameter, &self.classes, walk)?;
        Ok(Generic { parameter, classes })
    }
}

impl<P: Phase, Q: Phase, W: Walk<P, Q>> Part<Q, W> for Signature<P> {
    type New = Signature<Q>;

    ghost Kept = { Header W.KeptName };

    ghost old = { header (before W.Walk) };

    ghost new = { header (after W.Walk) };

    fn walked(&self, alloc: Global, walk: &mut W) -> Result<Signature<Q>, Memory> {
        let (name, parameters, result) = walked_three(
            alloc,
            &self.name,
            &self.parameters,
            &self.result,
            walk,
        )?;
        Ok(Signature {
            name,
            parameters,
            result,
        })
    }
}

impl<P: Phase, Q: Phase, W: Walk<P, Q>> Part<Q, W> for UnionCase<P> {
    type New = UnionCase<Q>;

    ghost Kept = { Variant W.KeptName };

    ghost old = { variant (before W.Walk) };

    ghost new = { variant (after W.Walk) };

    fn walked(&self, alloc: Global, walk: &mut W) -> Result<UnionCase<Q>, Memory> {
        let (name, fields) = walked_two(alloc, &self.name, &self.fields, walk)?;
        Ok(UnionCase { name, fields })
    }
}

impl<P: Phase, Q: Phase, W: Walk<P, Q>> Part<Q, W> for Method<P> {
    type New = Method<Q>;

    ghost Kept = { MethodBody W.KeptName W.KeptType W.KeptCall };

    ghost old = { method_body (before W.Walk) };

    ghost new = { method_body (after W.Walk) };

    fn walked(&self, alloc: Global, walk: &mut W) -> Result<Method<Q>, Memory> {
        let (signature, body) = walked_two(alloc, &self.signature, &self.body, walk)?;
        let end = self.end;
        Ok(Method {
            signature,
            body,
            end,
        })
    }
}

impl<P: Phase, Q: Phase, W: Walk<P, Q>> Part<Q, W> for Decl<P> {
    type New = Decl<Q>;

    ghost Kept = { Declaration W.KeptName W.KeptType W.KeptCall };

    ghost old = { declaration (before W.Walk) };

    ghost new = { declaration (after W.Walk) };

    fn walked(&self, alloc: Global, walk: &mut W) -> Result<Decl<Q>, Memory> {
        match self {
            Decl::Constant(at, name, of) => {
                let (name, of) = walked_two(alloc, name, of, walk)?;
                Ok(Decl::Constant(*at, name, of))
            }
            Decl::Opaque(at, name, parameters, universe) => {
                let (name, parameters) = walked_two(alloc, name, parameters, walk)?;
                Ok(Decl::Opaque(*at, name, parameters, *universe))
            }
            Decl::Record(at, name, parameters, universe, fields) => {
                let (name, parameters, fields) = walked_three(
                    alloc, name, parameters, fields, walk,
                )?;
                Ok(Decl::Record(*at, name, parameters, *universe, fields))
            }
            Decl::Union(at, name, parameters, universe, cases) => {
                let (name, parameters, cases) = walked_three(alloc, name, parameters, cases, walk)?;
                Ok(Decl::Union(*at, name, parameters, *universe, cases))
            }
            Decl::Function(at, generics, signature) => {
                let (generics, signature) = walked_two(alloc, generics, signature, walk)?;
                Ok(Decl::Function(*at, generics, signature))
            }
            Decl::Class(at, name, parameter, methods) => {
                let (name, parameter, methods) = walked_three(
                    alloc, name, parameter, methods, walk,
                )?;
                Ok(Decl::Class(*at, name, parameter, methods))
            }
            Decl::Instance(at, generics, name, of) => {
                let (generics, name, of) = walked_three(alloc, generics, name, of, walk)?;
                Ok(Decl::Instance(*at, generics, name, of))
            }
            Decl::ConstantBody(at, name, of, value) => {
                let (name, of, value) = walked_three(alloc, name, of, value, walk)?;
                Ok(Decl::ConstantBody(*at, name, of, value))
            }
            Decl::FunctionBody(at, generics, signature, body, end) => {
                let (generics, signature, body) = walked_three(
                    alloc, generics, signature, body, walk,
                )?;
                Ok(Decl::FunctionBody(*at, generics, signature, body, *end))
            }
            Decl::InstanceBody(at, generics, name, of, methods) => {
                let (generics, name, of, methods) = walked_four(
                    alloc, generics, name, of, methods, walk,
                )?;
                Ok(Decl::InstanceBody(*at, generics, name, of, methods))
            }
        }
    }
}

/// The declaration in the new phase.
///
/// # Errors
///
/// Only for want of memory.
pub fn walked_declaration<P: Phase, Q: Phase, W: Walk<P, Q>>(
    alloc: Global,
    of: &Decl<P>,
    walk: &mut W,
) -> Result<Decl<Q>, Memory>
    ensures { IfOk result (λ new.
        declaration (after W.Walk) new ≡ declaration (before W.Walk) of.now) }
{
    of.walked(alloc, walk)
}
