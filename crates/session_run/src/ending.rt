//! How a session ends and is reported, and how its stores, its disks and its capture come out.

use crate::session::Session;
use client_kinds::Guest;
use jack_host::{Sink, Source, Store, WriteFailed};
use session_ends::{Desk, Driver, SessionFault, end, report, take_disk, take_store};
use wave_pcm::Wave;

impl<S: Source, W: Store, G: Guest> Session<S, W, G> {
    ghost use Rattle.std.specs.Prelude.{◌≡◌, ◌∷◌, [], Err, IfNone, IfSome, IsNone, IsSome, OnErr, OnOk, false, length};
    ghost use Rattle.jack_host.specs.Bytes.{Puts};
    ghost use Rattle.jack_host.specs.Causes.{HasCause};
    ghost use Rattle.session_model.specs.Explanations.{Given};
    ghost use Rattle.session_model.specs.Scripts.{phases};
    ghost use Rattle.driver_laws.specs.Drivers.{run};
    ghost use Rattle.session_ends.specs.Endings.{StopsInOrder};
    ghost use Rattle.session_ends.specs.Seen.{AreLater, AtPhase, Ends, HasEnded, HasRun, OneRose, Playing, SerialKept, StandsInSerial, StandsSoFar, Write, driver_of, session_of, stores_in, text_in, told_of};

    /// Empties the rings and finishes the files: the recorders' in order, and then the playback's. Behind a fault, which is
    /// always `Write`, each store has a front of its file, and only `take_store`, `take_disk` and `into_capture` may be called.
    pub fn end(&mut self) -> Result<(), SessionFault>
        requires { HasRun G.sound self.old }
        ensures ends { OnOk result ((given : Given) → AtPhase (session_of G.sound self.old) given (length (phases self.old.gear.script)) → Ends given (session_of G.sound self.old) (session_of G.sound self.new)) }
        ensures ended { OnOk result (HasEnded G.sound self.new) }
        ensures told { OnOk result (told_of G.sound self.new ≡ session_of G.sound self.new) }
        ensures fault { IsNone self.old.gear.script.header.threads → OnErr result ((given : Given) → SerialKept given (session_of G.sound self.old) → StandsInSerial given (told_of G.sound self.new)) }
        ensures so_far { IsSome self.old.gear.script.header.threads → OnErr result ((given : Given) → AtPhase (session_of G.sound self.old) given (length (phases self.old.gear.script)) → StandsSoFar (run (driver_of G.sound self.old.gear)) (told_of G.sound self.new) given) }
        ensures stores { AreLater (stores_in self.old) (stores_in self.new) }
        ensures write { OnErr result (result ≡ Err Write) }
        ensures cause { OnErr result (OneRose (stores_in self.old) (stores_in self.new)) }
        ensures order { OnErr result (StopsInOrder self.old self.new) }
        ensures recorders { length self.new.recorders ≡ length self.old.recorders }
        ensures desk { self.new.desk ≡ self.old.desk }
        ensures players { self.new.players ≡ self.old.players }
        ensures numbers { self.new.gear.numbers ≡ self.old.gear.numbers }
        ensures script { self.new.gear.script ≡ self.old.gear.script }
        ensures capture { self.new.gear.capture ≡ self.old.gear.capture }
    {
        end(&mut self.parts, self.limits.ring)
    }

    /// The desk, whose history the report prints.
    pub fn desk(&self) -> &Desk
        ensures { result.now ≡ self.now.desk }
    {
        &self.parts.works.desk
    }

    /// The driver, whose numbers, moments, overruns, underruns and peaks the report prints.
    pub fn driver(&self) -> &Driver<S, W, G>
        ensures { result.now ≡ self.now.gear }
    {
        &self.parts.works.driver
    }

    /// Puts the report: the calls with their replies, the cycles with the number of changes that each used and the transport,
    /// the meters with their peaks, the events that were logged, the recorders with their overruns, and the disks with their
    /// underruns.
    pub fn report<K: Sink>(&self, out: &mut K) -> Result<(), WriteFailed>
        requires { HasEnded G.sound self.now }
        ensures puts { Puts (K.content out.old) (K.content out.new) result (text_in (session_of G.sound self.now)) }
        ensures cause { HasCause (K.faults out.old) (K.faults out.new) result }
    {
        report(out, &self.parts)
    }

    /// Takes the next store out, in the order of attaching, None exactly behind the last.
    pub fn take_store(&mut self) -> Option<W>
        ensures taken { IfSome result (λ w. stores_in self.old ≡ record { name = W.name w; bytes = W.content w; faults = W.faults w } ∷ stores_in self.new) }
        ensures none { IfNone result ((stores_in self.old ≡ []) × (stores_in self.new ≡ [])) }
        ensures report { text_in (session_of G.sound self.new) ≡ text_in (session_of G.sound self.old) }
        ensures ended { HasEnded G.sound self.old → HasEnded G.sound self.new }
        ensures capture { self.new.gear.capture ≡ self.old.gear.capture }
        ensures players { self.new.players ≡ self.old.players }
    {
        take_store(&mut self.parts)
    }

    /// Takes the source of the next disk out, in the order of opening, None exactly behind the last. After it the session may
    /// not be reported.
    pub fn take_disk(&mut self) -> Option<S>
        ensures taken { IfSome result (λ source. (player : Playing) × (self.old.players ≡ player ∷ self.new.players) × (S.faults source ≡ player.faults)) }
        ensures none { IfNone result ((self.old.players ≡ []) × (self.new.players ≡ [])) }
        ensures report { text_in (session_of G.sound self.new) ≡ text_in (session_of G.sound self.old) }
        ensures same { self.new ≡ record self.old { players = self.new.players } }
    {
        take_disk(&mut self.parts)
    }

    /// The capture, as far as it was read. Where no cycle failed, none of its reads did.
    pub fn into_capture(self) -> Wave<S>
        ensures reading { result ≡ self.gear.capture.reading }
        ensures sound { self.gear.failed ≡ false → result.failed ≡ false }
    {
        let parts = self.parts;
        let works = parts.works;
        works.driver.into_capture()
    }
}
