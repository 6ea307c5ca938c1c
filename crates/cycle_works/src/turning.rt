//! A cycle.

ghost use Rattle.std.specs.Prelude.{◌≡◌, ◌+◌, ◌<◌, ◌++◌, ◌∷◌, [], Bool, List, OnErr, OnOk, Option, length, is_err, replicate, slice_index, true, false, ◌≤◌, ℕ};
ghost use Rattle.std.specs.Vec.{vec_capacity};
ghost use Rattle.jack_types.specs.declared.moments.Moment.{Moment as MomentValue};
ghost use Rattle.jack_host.specs.Causes.{HasCause};
ghost use Rattle.session_model.specs.Scripts.{Script as ScriptValue};
ghost use Rattle.graph_word.specs.Publications.{Begins, Reading, Takes, last_row};
ghost use Rattle.midi_stage.specs.cycle_plan.specs.Plans.{Planned};
ghost use Rattle.driver_words.specs.Tapes.{Tape};
ghost use Rattle.session_model.specs.Samples.{silence};
ghost use Rattle.wave_pcm.specs.Readings.{SameReading};
ghost use Rattle.client_stage.specs.device_periods.specs.Captures.{Reads};
ghost use Rattle.midi_stage.specs.driver_laws.specs.Cycling.{MayCycle};
ghost use Rattle.cycle_laws.specs.Gears.{IsGear, driver_of};
ghost use Rattle.cycle_laws.specs.Turnings.{Turns};
ghost use Rattle.cycle_works.specs.Gears.{FailsToRead};
ghost use Rattle.cycle_works.specs.Insides.{gear_of};

use crate::parts::Parts;
use crate::works::Works;
use client_kinds::Guest;
use client_stage::device_periods::Capture;
use cycle_blocks::send_blocks;
use cycle_laws::gears::{a_cycle_leaves_the_parts, a_cycle_may_be_played};
use graph_word::Reader;
use jack_host::{Gate, ReadFailed, Source};
use midi_stage::cycle_plan::Plan;
use midi_stage::laws::what_is_carried;
use plan_transport::step_by_plan;
use std::thread::Threads;

/// The number that the last cycle took, 0 before the first.
fn last_number(numbers: &[u32]) -> u32
    ensures { result ≡ slice_index (0 ∷ numbers.now) (length numbers.now) }
{
    match numbers {
        [.., last] => *last,
        [] => 0,
    }
}

/// Takes the newest plan, and begins the next cycle with it. Answers the number that the last cycle took, and the cycle's own.
fn begin(reader: &mut Reader<Plan>, numbers: &mut Vec<u32>) -> (u32, u32)
    requires later { last_row reader.old.0.rows < length numbers.old.items + 1 }
    requires few { length numbers.old.items < 1000000 }
    requires room { length numbers.old.items < vec_capacity numbers.old }
    ensures last { result.0 ≡ slice_index (0 ∷ numbers.old.items) (length numbers.old.items) }
    ensures cycle { result.1 ≡ length numbers.old.items + 1 }
    ensures begun { (number : ℕ) × (taken : Reading) × Takes reader.old.0 number taken × Begins taken (length numbers.old.items + 1) reader.new.0 × (numbers.new.items ≡ numbers.old.items ++ number ∷ []) }
    ensures room { vec_capacity numbers.new ≡ vec_capacity numbers.old }
{
    let last = last_number(numbers);
    let number = reader.take();
    let cycle = numbers.len() as u32 + 1;
    reader.begin(cycle);
    numbers.push_reserved(number);
    (last, cycle)
}

/// Captures a period: the next frames of the file, or none in a freewheel cycle, which hears silence.
fn capture_period<S: Source>(
    capture: &mut Capture<S>,
    freewheel: bool,
    period: u32,
) -> Result<(), ReadFailed>
    requires going { capture.old.reading.failed ≡ false }
    requires room { period ≤ capture.old.room }
    ensures rests { freewheel ≡ true → capture.new ≡ record capture.old { channels = replicate capture.old.reading.format.channels (silence period) } }
    ensures reads { freewheel ≡ false → OnOk result (Reads capture.old.reading.left capture.new.reading.left capture.new.channels capture.old.reading.format.channels period) }
    ensures same { SameReading capture.old.reading capture.new.reading }
    ensures room { capture.new.room ≡ capture.old.room }
    ensures failed { capture.new.reading.failed ≡ is_err result }
    ensures cause { HasCause capture.old.reading.faults capture.new.reading.faults result }
{
    if freewheel {
        capture.rest(period);
        Ok(())
    } else {
        capture.read(period)
    }
}

/// Plays a cycle: takes the newest plan and begins, steps the transport, captures, gets the blocks of disks, lets the clients
/// of the plan play, audio and MIDI, and puts the blocks of the recorders. It takes no memory.
fn turn<S: Source, G: Guest + Send, T: Threads + Sync, K: Gate>(
    parts: &mut Parts<S, G>,
    threads: &T,
    gate: &K,
    freewheel: bool,
) -> Result<(), ReadFailed>
    requires may { (script : ScriptValue) × (playback : Option Tape) × (failed : Bool) × IsGear G.sound (gear_of script playback failed parts.old) × MayCycle (driver_of G.sound (gear_of script playback failed parts.old)) freewheel
        × (length parts.old.numbers.items < vec_capacity parts.old.numbers) × (length parts.old.moments.items < vec_capacity parts.old.moments) × (parts.old.midi.script ≡ script) }
    requires midi { parts.old.midi.changes ≡ parts.old.stage.plan.changes }
    ensures turned { (script : ScriptValue) (playback later : Option Tape) (failed stops : Bool) → parts.old.midi.script ≡ script
        → OnOk result ((plan : Planned) × (moment : MomentValue) × Turns G.sound freewheel (gear_of script playback failed parts.old) plan moment (gear_of script later stops parts.new)) }
    ensures failed { (script : ScriptValue) (playback : Option Tape) (failed : Bool) → OnErr result (FailsToRead (gear_of script playback failed parts.old) (gear_of script playback true parts.new)) }
    ensures same { SameReading parts.old.capture.reading parts.new.capture.reading }
    ensures cause { HasCause parts.old.capture.reading.faults parts.new.capture.reading.faults result }
    ensures numbers { vec_capacity parts.new.numbers ≡ vec_capacity parts.old.numbers }
    ensures moments { vec_capacity parts.new.moments ≡ vec_capacity parts.old.moments }
    ensures midi_script { parts.new.midi.script ≡ parts.old.midi.script }
    ensures midi_changes { parts.new.midi.changes ≡ parts.new.stage.plan.changes }
{
    a_cycle_may_be_played();
    what_is_carried();
    let (last, cycle) = begin(&mut parts.reader, &mut parts.numbers);
    let plan = parts.reader.place();
    let nodes = plan.nodes();
    let moment = step_by_plan(&mut parts.transport, plan, last, parts.set);
    parts.moments.push_reserved(moment);
    capture_period(&mut parts.capture, freewheel, parts.set)?;
    parts.disks.get_blocks(nodes, cycle);
    parts.stage.play(
        threads,
        gate,
        plan,
        &moment,
        parts.set,
        &parts.capture,
        &parts.disks,
    );
    parts.midi.play(plan, &moment, parts.set);
    send_blocks(
        &mut parts.rings,
        parts.stage.rack(),
        nodes,
        cycle,
        parts.set,
    );
    Ok(())
}

impl<S: Source, G: Guest + Send> Works<S, G> {
    ghost use Rattle.std.specs.Prelude.{◌≡◌, OnErr, OnOk, Option, is_err};
    ghost use Rattle.jack_types.specs.declared.moments.Moment.{Moment as MomentValue};
    ghost use Rattle.jack_host.specs.Causes.{HasCause};
    ghost use Rattle.midi_stage.specs.cycle_plan.specs.Plans.{Planned};
    ghost use Rattle.wave_pcm.specs.Readings.{SameReading};
    ghost use Rattle.driver_words.specs.Tapes.{Tape};
    ghost use Rattle.midi_stage.specs.driver_laws.specs.Cycling.{MayCycle};
    ghost use Rattle.cycle_laws.specs.Gears.{IsGear, driver_of};
    ghost use Rattle.cycle_laws.specs.Turnings.{Turns};
    ghost use Rattle.cycle_works.specs.Gears.{FailsToRead, with_playback};

    /// Plays the next cycle of the script: takes the newest plan and begins, steps the transport, captures, gets the blocks of
    /// disks, lets the clients of the plan play, audio and MIDI, and puts the blocks of the recorders. A freewheel cycle hears
    /// silence.
    ///
    /// Whether a cycle may be run is said with the playback of the owner, which may be one that tells nothing; what a cycle
    /// does is the same with any. It takes no memory. With one seat no thread is started.
    pub fn turn<T: Threads + Sync, K: Gate>(
        &mut self,
        threads: &T,
        gate: &K,
        freewheel: bool,
    ) -> Result<(), ReadFailed>
        requires may { (playback : Option Tape) × MayCycle (driver_of G.sound (with_playback self.old playback)) freewheel }
        ensures turned { OnOk result ((plan : Planned) × (moment : MomentValue) × Turns G.sound freewheel self.old plan moment self.new) }
        ensures failed { OnErr result (FailsToRead self.old self.new) }
        ensures sound { self.new.failed ≡ is_err result }
        ensures stands { IsGear G.sound self.old × IsGear G.sound self.new }
        ensures same { SameReading self.old.capture.reading self.new.capture.reading }
        ensures cause { HasCause self.old.capture.reading.faults self.new.capture.reading.faults result }
    {
        a_cycle_leaves_the_parts();
        let turned = turn(&mut self.parts, threads, gate, freewheel);
        self.failed = turned.is_err();
        turned
    }
}
