//! Laws of how much the cycles of a lawful script are, for those who make room for them once.

ghost use Rattle.std.specs.Prelude.{◌≡◌, ◌+◌, ◌*◌, ◌<◌, ◌≤◌, ℕ, length, slice_index_or, sum_by, take};
ghost use Rattle.session_model.specs.Grammar.{IsPeriod, IsScript, most_channels};
ghost use Rattle.session_model.specs.Scripts.{Script, ScriptCycle, turns};
ghost use Rattle.task_laws.specs.driver_laws.specs.Drivers.{Driver, channels_on, frames_run, greatest_period, turn_of};

/// There are at most 1,000,000 cycles.
pub fn cycles_are_few()
    ensures { (script : Script) → IsScript script → length (turns script) ≤ 1000000 }
{}

/// The period of each cycle is a power of two from 4 to 4,096, and at most the greatest, which is one too.
pub fn periods_are_in_range()
    ensures powers { (script : Script) (k : ℕ) → IsScript script → k < length (turns script) → IsPeriod (turn_of script (k + 1)).period }
    ensures some { (script : Script) (k : ℕ) → IsScript script → k < length (turns script) → 4 ≤ (turn_of script (k + 1)).period }
    ensures most { (script : Script) (k : ℕ) → IsScript script → k < length (turns script) → (turn_of script (k + 1)).period ≤ 4096 }
    ensures within { (script : Script) (k : ℕ) → k < length (turns script) → (turn_of script (k + 1)).period ≤ greatest_period script }
    ensures greatest { (script : Script) → IsScript script → IsPeriod (greatest_period script) }
    ensures low { (script : Script) → IsScript script → 4 ≤ greatest_period script }
    ensures high { (script : Script) → IsScript script → greatest_period script ≤ 4096 }
{}

/// The frames of a script's first cycles, of whatever channels it has most, are at most 500,000,000 samples; so are those
/// of the cycles that a driver ran, as many as a recorder has, or a disk, or the capture or the playback.
pub fn samples_are_few()
    ensures most { (script : Script) (n : ℕ) → IsScript script → sum_by (λ (turn : ScriptCycle). turn.period) (take n (turns script)) * most_channels script.header ≤ 500000000 }
    ensures run { (driver : Driver) → IsScript driver.script → frames_run driver * most_channels driver.script.header ≤ 500000000 }
    ensures recorders { (driver : Driver) (recorder : ℕ) → IsScript driver.script → frames_run driver * channels_on driver.script recorder ≤ 500000000 }
    ensures disks { (driver : Driver) (disk : ℕ) → IsScript driver.script → frames_run driver * slice_index_or driver.script.header.disks disk 0 ≤ 500000000 }
    ensures capture { (driver : Driver) → IsScript driver.script → frames_run driver * driver.script.header.capture ≤ 500000000 }
    ensures playback { (driver : Driver) → IsScript driver.script → frames_run driver * driver.script.header.playback ≤ 500000000 }
{}
