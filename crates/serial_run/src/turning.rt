//! A cycle of a session in serial mode, with what leaves the rings and what goes into them around it, and a round of the lanes.

ghost use Rattle.std.specs.Prelude.{◌≡◌, ◌+◌, ◌<◌, ◌≤◌, IsErrOf, OnErr, OnOk, length};
ghost use Rattle.session_model.specs.Scripts.{turns};
ghost use Rattle.session_works.specs.DeskWords.{IsDone};
ghost use Rattle.driver_laws.specs.Drivers.{run, turn_of};
ghost use Rattle.session_works.specs.Drivers.{driver_of};
ghost use Rattle.session_works.specs.SerialWords.{IsSettled, Turned, TurnFails};
ghost use Rattle.session_works.specs.Insides.{Stays, held, parts_of, seen};
ghost use Rattle.session_works.specs.Parts.{HasOpenFiles, OneRose, SourceRose};
ghost use Rattle.session_works.specs.declared.faults.SessionFault.{SessionFault as Fault};

use crate::steps::go_round;
use client_kinds::Guest;
use jack_host::{Gate, Source, Store};
use session_works::{RingLimits, SessionFault, SessionWorks, cycle, meet};
use std::thread::Threads;

/// Runs the next cycle. Before a freewheel cycle the recorders' rings are emptied and those of the disks filled, and behind it
/// the recorders' are emptied again; before a `run` cycle at most `fill` blocks go into each disk's ring, and behind it at most
/// `drain` leave each recorder's. Then the lanes go one round, between two meetings of desk and driver. Whatever fails, desk and
/// driver meet once more.
pub(crate) fn turn<S: Source, W: Store, G: Guest + Send, T: Threads + Sync, K: Gate>(
    works: &mut SessionWorks<S, W, G>,
    threads: &T,
    gate: &K,
    freewheel: bool,
    limits: RingLimits,
) -> Result<(), SessionFault>
    requires settled { IsSettled (seen G.sound works.old) }
    requires files { HasOpenFiles (parts_of works.old) }
    requires begun { 1 ≤ works.old.desk.phase }
    requires group { IsDone works.old.desk 0 }
    requires left { run (driver_of G.sound works.old.driver) < length (turns works.old.driver.script) }
    requires kind { (turn_of works.old.driver.script (run (driver_of G.sound works.old.driver) + 1)).is_freewheel ≡ freewheel }
    requires period { (turn_of works.old.driver.script (run (driver_of G.sound works.old.driver) + 1)).period ≡ works.old.driver.set }
    requires ring { limits.ring ≡ works.old.driver.script.header.ring }
    requires drain { limits.drain ≡ works.old.driver.script.header.drain }
    requires fill { limits.fill ≡ works.old.driver.script.header.fill }
    ensures turned { OnOk result (Turned freewheel (seen G.sound works.old) (seen G.sound works.new)) }
    ensures failed { OnErr result (TurnFails freewheel (seen G.sound works.old) (seen G.sound works.new)) }
    ensures stays { Stays G.sound (parts_of works.old) (parts_of works.new) }
    ensures set { works.new.driver.set ≡ works.old.driver.set }
    ensures begun { OnOk result (works.new.desk.phase ≡ works.old.desk.phase) }
    ensures group { OnOk result (IsDone works.new.desk 0) }
    ensures read { IsErrOf result SessionFault.Read → SourceRose (parts_of works.old) (parts_of works.new) }
    ensures write { IsErrOf result SessionFault.Write → OneRose (held works.old) (held works.new) }
{
    if let Err(fault) = cycle(
        &mut works.driver,
        &mut works.recorders,
        &mut works.readers,
        threads,
        gate,
        freewheel,
        limits,
    ) {
        meet(works);
        return Err(fault);
    }
    go_round(works);
    Ok(())
}
