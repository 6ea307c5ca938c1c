//! The desk.

ghost use Rattle.std.specs.Prelude.{◌≡◌, ◌≤◌, ◌<◌, ◌*◌, [], ◌++◌, ◌∷◌, IfOk, length};
ghost use Rattle.std.specs.Option.{option_map};
ghost use Rattle.graph_word.specs.Publications.{IsFront, Meets};
ghost use Rattle.jack_types.specs.declared.commands.Change.{Change as ChangeValue};
ghost use Rattle.lane_calls.specs.Plans.{plan_of};
ghost use Rattle.session_model.specs.Grammar.{IsScript};
ghost use Rattle.session_model.specs.Histories.{accepted};
ghost use Rattle.session_model.specs.Replies.{AreLawful};
ghost use Rattle.session_model.specs.Serial.{answered};
ghost use Rattle.call_laws.specs.cycle_plan.specs.Plans.{HasTempos, opening_of};
ghost use Rattle.control_desk.specs.Desks.{Begins, IsDesk, IsFresh, IsNewDesk, LooksBy, MayBegin, MayStep, Steps, HasSeen, base_of, next_call};
ghost use Rattle.control_desk.specs.Past.{IsNext};

use crate::history::History;
use crate::steps::Stepped;
use call_laws::cycle_plan::Plan;
use graph_word::{Publisher, Reader, meet};
use jack_types::{Change, Entry, Memory, Reply};
use lane_calls::PlannedCall;
use lane_calls::session_script::Script;
use std::alloc::Global;
use std::marker::Model;

/// The side of a session that makes calls: it answers each by the state behind those that were accepted before, keeps the
/// history, and publishes a plan for each accepted change.
///
/// Contracts see the script, the history, how many phases were begun, and the publisher. Only `new` takes memory.
#[derive(Drop)]
pub struct Desk {
    history: History,
    phase: u32,
    publisher: Publisher<Plan>,
}

impl Model for Desk {
    ghost use Rattle.std.specs.Prelude.{◌≡◌};
    ghost use Rattle.session_model.specs.Grammar.{IsScript};
    ghost use Rattle.control_desk.specs.Desks.{Desk, IsDesk, base_of};

    ghost Value = { Desk };

    ghost view = { λ d. record { script = d.history.script; history = d.history.history; phase = d.phase; publishing = d.publisher.0 } };

    ghost invariant = { λ d. IsDesk (record { script = d.history.script; history = d.history.history; phase = d.phase; publishing = d.publisher.0 })
        × IsScript d.history.script × (d.publisher.1.base ≡ base_of d.history.script) };
}

/// Publishes these changes, which are those published before and one more.
fn publish(publisher: &mut Publisher<Plan>, changes: &[Change])
    requires more { (more : ChangeValue) × (changes.now ≡ publisher.old.0.all ++ more ∷ []) }
    requires held { IsFront publisher.old.0.held changes.now }
    requires base { publisher.old.1.base ≡ publisher.old.0.base }
    requires lawful { AreLawful (opening_of publisher.old.0.base) changes.now }
    requires few { length changes.now ≤ 4096 }
    requires tempos { HasTempos changes.now }
    ensures all { publisher.new.0 ≡ record publisher.old.0 { all = changes.now; held = publisher.new.0.held } }
    ensures held { IsFront publisher.new.0.held changes.now }
    ensures base { publisher.new.1.base ≡ publisher.new.0.base }
{
    publisher.place().fill(changes);
    publisher.commit();
}

impl Desk {
    /// A desk before its first phase, over a publication for the script's channels of which nothing was published or seen.
    ///
    /// It keeps a script of its own, and takes room for all of its calls.
    pub fn new(alloc: Global, script: &Script, publisher: Publisher<Plan>) -> Result<Desk, Memory>
        requires fresh { IsFresh script.now publisher.0 }
        requires plan { publisher.1.base ≡ publisher.0.base }
        ensures { IfOk result (λ desk. IsNewDesk script.now publisher.0 desk) }
    {
        let history = History::new(alloc, script)?;
        Ok(Desk {
            history,
            phase: 0,
            publisher,
        })
    }

    /// Begins the next phase, counted from 0.
    pub fn begin(&mut self, phase: u32)
        requires { MayBegin self.old phase }
        ensures { Begins self.old phase self.new }
    {
        // The proof takes the type's invariant from here.
        let begun = &mut self.phase;
        *begun = phase + 1;
    }

    /// Makes the next call of a lane, if it has one in this phase and the cycle that the call asks for was begun.
    ///
    /// One load of the cycle word, but for lane 0, which asks for no cycle; and for an accepted change one exchange of the
    /// graph word. It takes no memory.
    pub fn step(&mut self, lane: usize) -> Stepped
        requires { MayStep self.old lane }
        ensures { Steps self.old lane result self.new }
    {
        let Some(planned) = self.next(lane) else {
            return Stepped::Done;
        };
        let seen = self.look(lane);
        if seen < planned.asked {
            return Stepped::NotYet {
                asked: planned.asked,
                seen,
            };
        }
        Stepped::Did(self.make(&planned))
    }

    /// The calls that were made, in their order, each with its reply.
    pub fn history(&self) -> &[Entry]
        ensures value { result.now ≡ self.now.history }
        ensures desk { IsDesk self.now }
        ensures script { IsScript self.now.script }
    {
        self.history.entries()
    }

    /// How many changes were published.
    pub fn published(&self) -> u32
        ensures value { result ≡ length self.now.publishing.all }
        ensures desk { IsDesk self.now }
    {
        self.publisher.published()
    }

    /// Tells the desk and the reader how far the other has come.
    pub fn meet(&mut self, reader: &mut Reader<Plan>)
        requires { self.old.publishing.table ≡ reader.old.0.table }
        ensures meets { Meets self.old.publishing reader.old.0 self.new.publishing reader.new.0 }
        ensures plan { reader.new.1 ≡ reader.old.1 }
        ensures same { self.new ≡ record self.old { publishing = self.new.publishing } }
    {
        meet(&mut self.publisher, reader);
    }

    /// The lane's next call, if it has one in the phases begun.
    fn next(&self, lane: usize) -> Option<PlannedCall>
        requires { lane ≤ 4 }
        ensures next { option_map plan_of result ≡ next_call self.now lane }
        ensures desk { IsDesk self.now }
        ensures script { IsScript self.now.script }
    {
        let planned = self.history.next(lane)?;
        if planned.stage / 2 < self.phase {
            Some(planned)
        } else {
            None
        }
    }

    /// The cycle begun last, as a lane's call sees it; those of lane 0 do not look.
    fn look(&mut self, lane: usize) -> u32
        ensures looks { LooksBy lane self.old.publishing result self.new.publishing }
        ensures same { self.new ≡ record self.old { publishing = self.new.publishing } }
    {
        if lane == 0 {
            return 0;
        }
        self.publisher.cycle_seen()
    }

    /// Makes a call: answers it, enters it, and publishes its change if it was accepted.
    fn make(&mut self, planned: &PlannedCall) -> Reply
        requires next { IsNext self.old.script self.old.history (plan_of planned.now) }
        requires phase { planned.now.stage < 2 * self.old.phase }
        requires seen { HasSeen self.old (plan_of planned.now) }
        ensures history { self.new.history ≡ self.old.history ++ answered self.old.script self.old.history planned.now.call ∷ [] }
        ensures reply { result ≡ (answered self.old.script self.old.history planned.now.call).reply }
        ensures publishes { self.new.publishing ≡ record self.old.publishing { all = accepted self.new.history; held = self.new.publishing.held } }
        ensures same { self.new ≡ record self.old { history = self.new.history; publishing = self.new.publishing } }
    {
        let reply = self.history.answer(planned);
        if let Reply::Accepted(_) = reply {
            publish(&mut self.publisher, self.history.changes());
        }
        reply
    }
}
