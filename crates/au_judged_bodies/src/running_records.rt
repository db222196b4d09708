//! Records and unions that the rules of typing know, where they run.

ghost use Rattle.au_judged_bodies.specs.Records.{RecordsRun, UnionsRun};

/// Records and unions that are known in a module have the fields that typing knows, where they run.
pub fn records_run()
    ensures records { RecordsRun }
    ensures unions { UnionsRun }
{}
