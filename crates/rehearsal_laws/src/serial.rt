//! Laws of serial mode.

ghost use Rattle.std.specs.Prelude.{◌≡◌, ℕ, []};
ghost use Rattle.rehearsal_model.specs.Rehearsals.{rehearsal};
ghost use Rattle.session_model.specs.Explanations.{Given};
ghost use Rattle.session_model.specs.Serial.{serial, serial_printed};

/// Without a disk what serial mode prints rests on the script alone; so it does of each rehearsal.
pub fn no_disk_has_no_underrun()
    ensures each { (given : Given) → given.script.header.disks ≡ [] → serial_printed given ≡ serial given.script }
    ensures rehearsals { (n : ℕ) → serial_printed (rehearsal n) ≡ serial (rehearsal n).script }
{}
