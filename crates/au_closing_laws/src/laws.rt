//! Laws of the instances that a program reaches.

ghost use Rattle.std.specs.Prelude.{◌≡◌, ◌∷◌, [], Contains, List};
ghost use Rattle.au_closing.specs.Closes.{ClosedFunction, ClosesFunctions, calls_of};
ghost use Rattle.au_closing.specs.Instances.{Instance as InstanceSeen, same_instance};
ghost use Rattle.au_closing.specs.Leading.{call_leads};
ghost use Rattle.au_closing_laws.specs.Sound.{IsSomewhere, IsSound};
ghost use Rattle.au_closing_laws.specs.Targets.{Call, IsEntry, IsTyped, calls_listed};
ghost use Rattle.au_typing.specs.Trees.{NotedParts};
ghost use Rattle.au_modules.specs.Programs.{ModuleParts};
ghost use Rattle.au_graphs.specs.Reached.{Lists, Reached};

/// In a typed program each instance that is reached from an entry is sound, and each call of a sound instance
/// leads somewhere: to an instance that is sound as well, to a constructor or to a shipped call.
pub fn reached_instances_are_sound()
    ensures calls { (program : List ModuleParts) (noted : List NotedParts)
        → IsTyped program noted
        → (one : InstanceSeen) (sound : IsSound program noted one) (call : Call)
        → Contains (calls_listed sound.body.block) call
        → IsSomewhere program noted (call_leads program sound.body.place one.given call.0 call.1) }
    ensures reached { (program : List ModuleParts) (noted : List NotedParts)
        → IsTyped program noted
        → (entry : InstanceSeen)
        → IsEntry program noted entry
        → (one : InstanceSeen)
        → Reached same_instance (calls_of program noted) (entry ∷ []) one
        → IsSound program noted one }
{}

/// A typed program closes from an entry: over the list of the instances that are reached, if there is one,
/// each of them has its closed tree.
pub fn typed_programs_close()
    ensures { (program : List ModuleParts) (noted : List NotedParts)
        → IsTyped program noted
        → (entry : InstanceSeen)
        → IsEntry program noted entry
        → (all : List InstanceSeen)
        → Lists same_instance (calls_of program noted) (entry ∷ []) all
        → (functions : List ClosedFunction) × ClosesFunctions program noted entry functions }
{}
