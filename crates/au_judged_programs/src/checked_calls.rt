//! Checked programs are as calls in their bodies ask them.

ghost use Rattle.au_judged_programs.specs.CheckedCallsChecked.{CheckedProgramsFit};

/// A checked program is as calls in its bodies ask it.
pub fn checked_calls_run()
    ensures { CheckedProgramsFit }
{}
