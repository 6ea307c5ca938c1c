//! Laws of serial mode's calls, each as the contract of a function that does nothing.

ghost use Rattle.serial_lanes.specs.Laws.{BehindAll, BehindLastRound, BehindNone, BehindWhereMet, CallsNextPhase, CallsNextRound, CallsWhole, CyclesTotal, DoneWhereMet, HistoryFront, PublishedNumber, RoundOfLanes, SerialNumber, SerialWhereMet};

/// The calls up to a place: one more round of the lanes, the end of a phase, and all phases.
pub fn calls_by_rounds()
    ensures round { CallsNextRound }
    ensures phase { CallsNextPhase }
    ensures whole { CallsWhole }
{}

/// A desk between the phases: before the first one, behind a phase's last round, and behind all.
pub fn desk_by_phases()
    ensures none { BehindNone }
    ensures last { BehindLastRound }
    ensures all { BehindAll }
{}

/// Lanes that saw no cycle but the one begun last made just the calls that were due.
pub fn round_of_lanes()
    ensures { RoundOfLanes }
{}

/// What was accepted before a cycle is the number of the definition, and is what the desk has published then.
pub fn number_before_cycle()
    ensures number { SerialNumber }
    ensures published { PublishedNumber }
{}

/// The history of serial mode begins with what a desk has made so far.
pub fn front_of_history()
    ensures { HistoryFront }
{}

/// A desk that meets its reader stays at its place of the session.
pub fn desk_that_meets()
    ensures serial { SerialWhereMet }
    ensures behind { BehindWhereMet }
    ensures done { DoneWhereMet }
{}

/// The phases' cycles are the script's turns.
pub fn cycles_of_phases()
    ensures { CyclesTotal }
{}
