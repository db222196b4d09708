//! Laws of instances, and of the list of those that a program reaches.

ghost use Rattle.std.specs.Prelude.{◌≡◌, ◌∷◌, [], List, Some, slice_get};
ghost use Rattle.au_closing.specs.Closes.{ClosedFunction, ClosesFunctions, calls_of};
ghost use Rattle.au_closing.specs.Instances.{Instance as InstanceSeen, place_in, same_instance};
ghost use Rattle.au_typing.specs.Trees.{NotedParts};
ghost use Rattle.au_modules.specs.Programs.{ModuleParts};
ghost use Rattle.au_graphs.specs.Reached.{Has, Lists, TellsSame};

/// Two instances are one exactly where they are equal: where they are of one function or method, and the same
/// closed types are given for its type parameters.
pub fn instances_are_told()
    ensures { TellsSame same_instance }
{}

/// At the number of an instance in a list that has it stands this instance.
pub fn numbers_lead_back()
    ensures { (all : List InstanceSeen) (one : InstanceSeen) → Has same_instance all one
        → slice_get all (place_in one all) ≡ Some one }
{}

/// In the list of the instances that a program reaches from its entry, the entry is the first, and what one
/// of them calls is one of them.
pub fn what_is_reached_is_listed()
    ensures entry { (program : List ModuleParts) (noted : List NotedParts) (entry : InstanceSeen)
        (all : List InstanceSeen)
        → Lists same_instance (calls_of program noted) (entry ∷ []) all
        → slice_get all 0 ≡ Some entry }
    ensures calls { (program : List ModuleParts) (noted : List NotedParts) (entry : InstanceSeen)
        (all : List InstanceSeen)
        → Lists same_instance (calls_of program noted) (entry ∷ []) all
        → (one called : InstanceSeen)
        → Has same_instance all one
        → Has same_instance (calls_of program noted one) called
        → Has same_instance all called }
{}

/// There is one closing of a program from an entry.
pub fn there_is_one_closing()
    ensures { (program : List ModuleParts) (noted : List NotedParts) (entry : InstanceSeen)
        (these those : List ClosedFunction)
        → (one : ClosesFunctions program noted entry these)
        → (other : ClosesFunctions program noted entry those)
        → (one.instances ≡ other.instances) × (these ≡ those) }
{}
