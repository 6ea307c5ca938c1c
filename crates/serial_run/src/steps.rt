//! The steps of a run in serial mode that no cycle is in: the lanes go, between two meetings of desk and driver.

ghost use Rattle.std.specs.Prelude.{◌≡◌, ◌≤◌, ◌<◌, length};
ghost use Rattle.session_works.specs.DeskWords.{IsDone};
ghost use Rattle.session_works.specs.RunWords.{Session as SessionValue};
ghost use Rattle.session_works.specs.serial_lanes.specs.Lanes.{BehindPhases};
ghost use Rattle.session_model.specs.Scripts.{phases};
ghost use Rattle.session_works.specs.SerialWords.{Begun, Met, Rounded};
ghost use Rattle.session_works.specs.Insides.{seen};

use client_kinds::Guest;
use jack_host::{Source, Store};
use session_works::serial_lanes::laws::desk_that_meets;
use session_works::serial_lanes::{begin_phase, round};
use session_works::{SessionWorks, kept_by_type, meet};

/// Lets lanes 1 to 4 go one round, between two meetings.
pub(crate) fn go_round<S: Source, W: Store, G: Guest>(works: &mut SessionWorks<S, W, G>)
    requires table { works.old.desk.publishing.table ≡ works.old.driver.reading.table }
    requires begun { 1 ≤ works.old.desk.phase }
    requires group { IsDone works.old.desk 0 }
    ensures round { (met : SessionValue) × (rounded : SessionValue) × Met (seen G.sound works.old) met × Rounded met rounded × Met rounded (seen G.sound works.new) }
    ensures group { IsDone works.new.desk 0 }
    ensures phase { works.new.desk.phase ≡ works.old.desk.phase }
    ensures driver { works.new.driver ≡ record works.old.driver { reading = works.new.driver.reading } }
    ensures recorders { works.new.recorders ≡ works.old.recorders }
    ensures readers { works.new.readers ≡ works.old.readers }
{
    desk_that_meets();
    meet(works);
    round(&mut works.desk);
    kept_by_type(&works.desk);
    meet(works);
}

/// Begins a phase: makes its `do` calls, and lets the lanes go their first round.
pub(crate) fn begin<S: Source, W: Store, G: Guest>(works: &mut SessionWorks<S, W, G>, phase: u32)
    requires table { works.old.desk.publishing.table ≡ works.old.driver.reading.table }
    requires behind { BehindPhases works.old.desk phase }
    requires there { phase < length (phases works.old.desk.script) }
    ensures begun { Begun phase (seen G.sound works.old) (seen G.sound works.new) }
    ensures group { IsDone works.new.desk 0 }
    ensures phase { 1 ≤ works.new.desk.phase }
    ensures driver { works.new.driver ≡ record works.old.driver { reading = works.new.driver.reading } }
    ensures recorders { works.new.recorders ≡ works.old.recorders }
    ensures readers { works.new.readers ≡ works.old.readers }
{
    begin_phase(&mut works.desk, phase);
    kept_by_type(&works.desk);
    go_round(works);
}
