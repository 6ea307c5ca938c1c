//! Laws of legal histories and of desks.

ghost use Rattle.control_desk.specs.Laws.{AcceptedAll, AcceptedLater, AcceptedUpTo, AskedWithin, DoneGoesOn, FirstBegins, LawfulAccepted, LegalWhereDone, MadeWhereDone, NextStage, OfCallsAccepted, StageOfLane, StepGoesOn};

/// What a legal history accepts is lawful, and is commands of calls of the script, each call once.
pub fn accepted_of_legal()
    ensures lawful { LawfulAccepted }
    ensures calls { OfCallsAccepted }
{}

/// What was accepted below a stage: all of the phases begun, and no more where only later calls are made.
pub fn accepted_by_stages()
    ensures up_to { AcceptedUpTo }
    ensures later { AcceptedLater }
    ensures all { AcceptedAll }
{}

/// Where no lane has a call left, all calls of the phases begun are made; in the last phase the history is legal.
pub fn made_where_done()
    ensures made { MadeWhereDone }
    ensures legal { LegalWhereDone }
{}

/// Whatever a step answers, the desk goes on; in a desk that goes on lane 0 has no call left where it had none, and a
/// lane's next call is of the present phase.
pub fn goes_on()
    ensures step { StepGoesOn }
    ensures done { DoneGoesOn }
    ensures next { NextStage }
{}

/// What calls wait for, and whose stages they have.
pub fn plans_of_lanes()
    ensures asked { AskedWithin }
    ensures stages { StageOfLane }
{}

/// Before any phase the first one may begin.
pub fn first_begins()
    ensures { FirstBegins }
{}
