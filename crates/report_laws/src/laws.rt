//! A report is read line by line exactly where it is of its form.

ghost use Rattle.std.specs.Prelude.{◌≡◌, ◌≤◌, ◌<◌, ◌↔◌, ◌++◌, ◌∷◌, [], ℕ, List, Some, length, map, take};
ghost use Rattle.check_model.specs.Checking.{BeginsReport, IsForm, ended_lines};
ghost use Rattle.session_model.specs.Grammar.{IsScript};
ghost use Rattle.session_model.specs.Reports.{Report, report_lines};
ghost use Rattle.session_model.specs.Scripts.{Script};
ghost use Rattle.report_reader.specs.Forms.{IsLineForm, line_text};
ghost use Rattle.report_reader.specs.declared.rows.Line.{Line};
ghost use Rattle.report_laws.specs.Places.{IsRead, limits_of, next, rest};
ghost use Rattle.report_laws.specs.declared.places.Place.{Place};
ghost use Rattle.report_laws.specs.declared.places.Place.TheVariants.{Done};

/// Texts are the lines of a whole report of the form exactly where they lead to the end.
pub fn whole_by_place()
    ensures { (script : Script) → IsScript script → (texts : List (List ℕ)) → ((report : Report) × IsForm script report × (texts ≡ report_lines report)) ↔ IsRead script texts Done }
{}

/// So many lines of a text begin a report of the form exactly where they lead to a place.
pub fn form_by_lines()
    ensures { (script : Script) → IsScript script → (bytes : List ℕ) (n : ℕ) → n ≤ length (ended_lines bytes)
        → BeginsReport script bytes n ↔ ((place : Place) × IsRead script (take n (ended_lines bytes)) place) }
{}

/// Where a text has fewer lines than that, they are a whole report.
pub fn form_of_few_lines()
    ensures { (script : Script) → IsScript script → (bytes : List ℕ) (n : ℕ) → length (ended_lines bytes) < n
        → BeginsReport script bytes n ↔ IsRead script (ended_lines bytes) Done }
{}

/// What leads to a place goes on to a whole report by the lines of `rest`.
pub fn rest_is_whole()
    ensures { (script : Script) → IsScript script → (texts : List (List ℕ)) (place : Place) → IsRead script texts place
        → IsRead script (texts ++ map line_text (rest (limits_of script) place)) Done }
{}

/// Texts lead to one place at most.
pub fn one_place()
    ensures { (script : Script) (texts : List (List ℕ)) (one two : Place) → IsRead script texts one → IsRead script texts two → one ≡ two }
{}

/// One text more leads to a place exactly where it is a line of the form that may come there.
pub fn one_line_more()
    ensures { (script : Script) (texts : List (List ℕ)) (place : Place) → IsRead script texts place → (text : List ℕ) (behind : Place)
        → IsRead script (texts ++ text ∷ []) behind ↔ ((read : Line) × IsLineForm read × (text ≡ line_text read) × (next (limits_of script) place read ≡ Some behind)) }
{}
