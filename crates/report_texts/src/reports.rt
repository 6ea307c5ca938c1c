//! Laws of reports.

ghost use Rattle.std.specs.Prelude.{◌≡◌};
ghost use Rattle.session_laws.specs.session_model.specs.Explanations.{Explained, Given, Printed, Written};
ghost use Rattle.session_laws.specs.session_model.specs.Grammar.{IsScript};

/// One report is explained by one history, with one list of numbers, of overruns and of underruns.
pub fn one_report_one_history()
    ensures { (given : Given) → IsScript given.script → (one two : Printed) (files others : Written) → Explained given one files → Explained given two others → files.report ≡ others.report → one ≡ two }
{}
