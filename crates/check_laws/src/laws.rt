//! The checker's answers against what explains files.

ghost use Rattle.std.specs.Prelude.{◌≡◌, ◌<◌, ◌↔◌, ℕ, length};
ghost use Rattle.jack_types.specs.declared.replies.Part.{Part};
ghost use Rattle.jack_types.specs.declared.replies.Row.{Row};
ghost use Rattle.session_model.specs.Explanations.{Given, Printed, Written, Explained, course_of, overruns_of};
ghost use Rattle.session_model.specs.Grammar.{IsScript};
ghost use Rattle.session_model.specs.Recorders.{Lost};
ghost use Rattle.session_model.specs.Reports.{Report, report_lines, report_of};
ghost use Rattle.check_model.specs.Checking.{IsForm, IsOverrunRight, IsRight, AllRight, IsFirstWrong, printed_of, ended_lines};

/// A report of the form, with all its parts right, explains the files, by what it says itself.
pub fn right_is_explained()
    ensures { (given : Given) (written : Written) (report : Report) → IsForm given.script report → ended_lines written.report ≡ report_lines report
        → length written.records ≡ length given.script.header.recorders → ((part : Part) → AllRight (IsRight given written report part))
        → Explained given (printed_of given.script report) written }
{}

/// The other way: where files are explained, their report is of the form, says what explains them, and all its parts are right.
pub fn explained_is_right()
    ensures { (given : Given) → IsScript given.script → (printed : Printed) (written : Written) → Explained given printed written
        → (report : Report) × IsForm given.script report × (ended_lines written.report ≡ report_lines report) × (printed_of given.script report ≡ printed) × ((part : Part) → AllRight (IsRight given written report part)) }
{}

/// What has a first wrong part is not explained, by any history and numbers.
pub fn wrong_is_unexplained()
    ensures { (given : Given) → IsScript given.script → (printed : Printed) (written : Written) (row : Row) → IsFirstWrong given written row → Explained given printed written → ⊥ }
{}

/// There is one first wrong part at most.
pub fn one_first_wrong()
    ensures { (given : Given) → IsScript given.script → (written : Written) (one two : Row) → IsFirstWrong given written one → IsFirstWrong given written two → one ≡ two }
{}

/// It can't be that nothing explains the files and that nothing is their first wrong part, where there are as many records as recorders.
pub fn explained_or_wrong()
    ensures { (given : Given) → IsScript given.script → (written : Written) → length written.records ≡ length given.script.header.recorders
        → ((printed : Printed) → Explained given printed written → ⊥) → ((row : Row) → IsFirstWrong given written row → ⊥) → ⊥ }
{}

/// The overruns of a report of the form are right at each place exactly where those of each recorder are ones that can be.
pub fn overruns_by_places()
    ensures { (given : Given) (report : Report) → IsForm given.script report
        → AllRight (IsOverrunRight (course_of given (printed_of given.script report)) (printed_of given.script report) report)
        ↔ ((recorder : ℕ) → recorder < length given.script.header.recorders → Lost (course_of given (printed_of given.script report)) (overruns_of (printed_of given.script report) recorder) recorder) }
{}
