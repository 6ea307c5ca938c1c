//! How a phase begins, and how the lanes finish it.

ghost use Rattle.std.specs.Prelude.{◌≡◌, ◌≤◌, suc};
ghost use Rattle.session_works.specs.DeskWords.{IsDone, MayBegin};
ghost use Rattle.session_works.specs.SerialWords.{Met, Rounded};
ghost use Rattle.session_works.specs.Insides.{seen};
ghost use Rattle.session_threads.specs.Phases.{Opens};
ghost use Rattle.session_works.specs.RunWords.{Session as SessionValue};

use client_kinds::Guest;
use jack_host::{Source, Store};
use session_works::serial_lanes::laws::desk_that_meets;
use session_works::serial_lanes::{begin_group, round};
use session_works::{SessionWorks, kept_by_type, meet};

/// Begins a phase behind so many others: its `do` calls are made, desk and driver meet, and the period of its cycles is set,
/// in frames.
pub(crate) fn begin<S: Source, W: Store, G: Guest>(
    works: &mut SessionWorks<S, W, G>,
    phase: u32,
    period: u32,
)
    requires may { MayBegin works.old.desk phase }
    requires table { works.old.desk.publishing.table ≡ works.old.driver.reading.table }
    ensures opens { Opens phase (seen G.sound works.old) (seen G.sound works.new) }
    ensures phase { works.new.desk.phase ≡ suc phase }
    ensures group { IsDone works.new.desk 0 }
    ensures driver { works.new.driver ≡ record works.old.driver { reading = works.new.driver.reading; set = period } }
    ensures recorders { works.new.recorders ≡ works.old.recorders }
    ensures readers { works.new.readers ≡ works.old.readers }
{
    desk_that_meets();
    begin_group(&mut works.desk, phase);
    kept_by_type(&works.desk);
    meet(works);
    works.driver.period(period);
}

/// Lets desk and driver meet, and the lanes go until each waits or has no call left.
pub(crate) fn finish_lanes<S: Source, W: Store, G: Guest>(works: &mut SessionWorks<S, W, G>)
    requires table { works.old.desk.publishing.table ≡ works.old.driver.reading.table }
    requires begun { 1 ≤ works.old.desk.phase }
    requires group { IsDone works.old.desk 0 }
    ensures filled { (heard : SessionValue) × Met (seen G.sound works.old) heard × Rounded heard (seen G.sound works.new) }
    ensures table { works.new.desk.publishing.table ≡ works.new.driver.reading.table }
    ensures driver { works.new.driver ≡ record works.old.driver { reading = works.new.driver.reading } }
    ensures recorders { works.new.recorders ≡ works.old.recorders }
    ensures readers { works.new.readers ≡ works.old.readers }
{
    desk_that_meets();
    meet(works);
    round(&mut works.desk);
    kept_by_type(&works.desk);
}
