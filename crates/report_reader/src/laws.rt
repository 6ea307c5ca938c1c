//! The lines of a whole report, against the definition of its form.

ghost use Rattle.std.specs.Prelude.{◌≡◌, ◌↔◌, All, map};
ghost use Rattle.check_model.specs.Checking.{IsForm};
ghost use Rattle.session_model.specs.Grammar.{IsScript};
ghost use Rattle.session_model.specs.Reports.{Report, report_lines};
ghost use Rattle.session_model.specs.Scripts.{Script};
ghost use Rattle.report_reader.specs.Forms.{IsLineForm, line_text};
ghost use Rattle.report_reader.specs.Reports.{IsPlaced, report_rows};

/// The lines of a report are the texts that the definitions print of it.
pub fn rows_are_printed()
    ensures { (report : Report) → map line_text (report_rows report) ≡ report_lines report }
{}

/// A report is of the form exactly where each of its lines is, and they have their numbers and places.
pub fn form_by_rows()
    ensures { (script : Script) → IsScript script → (report : Report) → IsForm script report ↔ (IsPlaced script report × All IsLineForm (report_rows report)) }
{}
