//! Laws of the keys of instances.

ghost use Rattle.std.specs.Prelude.{◌≡◌};
ghost use Rattle.au_closing.specs.Instances.{Instance as InstanceSeen};
ghost use Rattle.au_closing.specs.Keys.{instance_key};

/// Two instances that have one key are one.
pub fn instance_keys_tell()
    ensures { (a b : InstanceSeen) → instance_key a ≡ instance_key b → a ≡ b }
{}
