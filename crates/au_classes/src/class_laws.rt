//! Laws of the definitions.

ghost use Rattle.std.specs.Prelude.{◌≡◌, ◌↔◌, List, None};
ghost use Rattle.au_classes.specs.Faults.{instance_fault};
ghost use Rattle.au_classes.specs.Good.{InstancesAreGood};
ghost use Rattle.au_modules.specs.Programs.{ModuleParts};

/// Instances are refused for nothing exactly where the rule on them holds.
pub fn good_instances_are_not_refused()
    ensures { (program : List ModuleParts) → (instance_fault program ≡ None) ↔ InstancesAreGood program }
{}
