//! Laws of the definitions.

ghost use Rattle.std.specs.Prelude.{◌≡◌, List};
ghost use Rattle.au_caps.specs.Reports.{IsReportOf};
ghost use Rattle.au_caps_text.specs.declared.reports.Report.{Report};
ghost use Rattle.au_modules.specs.Programs.{ModuleParts};
ghost use Rattle.au_typing.specs.Trees.{NotedParts};

/// A program has one report at most.
pub fn reports_agree()
    ensures { (program : List ModuleParts) (noted : List NotedParts) (a b : Report)
        → IsReportOf program noted a → IsReportOf program noted b → a ≡ b }
{}
