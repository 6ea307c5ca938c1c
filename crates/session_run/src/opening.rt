//! How a session is made, and how its stores are attached.

ghost use Rattle.std.specs.Prelude.{◌≡◌, IfOk};
ghost use Rattle.script_segments.specs.Segments.{segments as the_segments};

use crate::session::Session;
use client_kinds::Guest;
use jack_host::{Source, Store};
use jack_types::Memory;
use script_segments::{Segment, segments};
use session_ends::{RingLimits, SessionFault, attach, open};
use session_script::Script;
use session_threads::Lanes;
use std::alloc::Global;
use wave_pcm::Wave;

/// What a session has besides its parts: the segments of its script, and a turn for its lanes.
fn prepare(alloc: Global, script: &Script) -> Result<(Vec<Segment>, Lanes), Memory>
    ensures { IfOk result (λ prepared. prepared.0.items ≡ the_segments script.now) }
{
    let segments = segments(alloc, script)?;
    let lanes = Lanes::new(alloc)?;
    Ok((segments, lanes))
}

impl<S: Source, W: Store, G: Guest> Session<S, W, G> {
    ghost use Rattle.std.specs.Prelude.{◌≡◌, ◌≤◌, ◌++◌, ◌∷◌, [], Err, IfErr, IfOk, IfSome, OnErr, OnOk, false, is_some, length, map, suc};
    ghost use Rattle.std.specs.Option.{ForSome};
    ghost use Rattle.jack_host.specs.Causes.{Rose};
    ghost use Rattle.session_model.specs.Grammar.{IsScript};
    ghost use Rattle.wave_pcm.specs.Readings.{Reading};
    ghost use Rattle.recorder_files.specs.Recorders.{Stored};
    ghost use Rattle.driver_words.specs.Tapes.{IsCut};
    ghost use Rattle.session_ends.specs.Seen.{AreDisks, IsAttaching, Playing, driver_of, format_next, guests_needed, stores_in};

    /// A session of a script, with these guests, over a capture of the script's channels and a file for each of its disks, of
    /// which nothing was read. All memory is taken here; where it lacks, the capture and the files come back.
    pub fn new(
        alloc: Global,
        script: &Script,
        capture: Wave<S>,
        disks: Vec<Wave<S>>,
        guests: Vec<G>,
    ) -> Result<Session<S, W, G>, (Wave<S>, Vec<Wave<S>>, Memory)>
        requires lawful { IsScript script.now }
        requires capture { (capture.format.channels ≡ script.now.header.capture) × (capture.failed ≡ false) }
        requires disks { AreDisks script.now.header.disks disks.items }
        requires guests { guests_needed script.now ≤ length guests.items }
        ensures new { IfOk result (λ session. IsAttaching G.sound session × (session.attached ≡ 0) × (stores_in session ≡ [])) }
        ensures script { IfOk result (λ session. session.gear.script ≡ script.now) }
        ensures scores { IfOk result (λ session. (driver_of G.sound session.gear).scores ≡ map G.sound (map G.score guests.items)) }
        ensures capture { IfOk result (λ session. session.gear.capture.reading ≡ capture) }
        ensures players { IfOk result (λ session. (map (λ (p : Playing). p.left) session.players ≡ map (λ (w : Reading). w.left) disks.items) × (map (λ (p : Playing). p.faults) session.players ≡ map (λ (w : Reading). w.faults) disks.items)) }
        ensures recorders { IfOk result (λ session. length session.recorders ≡ length script.now.header.recorders) }
        ensures back { IfErr result (λ refused. (refused.0 ≡ capture) × (refused.1.items ≡ disks.items)) }
    {
        let header = script.header();
        let (segments, lanes) = match prepare(alloc, script) {
            Ok(prepared) => prepared,
            Err(memory) => return Err((capture, disks, memory)),
        };
        let parts = open(alloc, script, capture, disks, guests)?;
        Ok(Session {
            segments,
            limits: RingLimits {
                ring: header.ring,
                drain: header.drain,
                fill: header.fill,
            },
            lanes,
            is_serial: header.threads.is_none(),
            parts,
        })
    }

    /// Starts a file in an empty store: the playback's first, and then the recorders' in order. On a fault the store is kept
    /// for `take_store`, and only that, `take_disk` and `into_capture` may be called.
    pub fn attach(&mut self, store: W) -> Result<(), SessionFault>
        requires attaching { IsAttaching G.sound self.old }
        requires fewer { self.old.attached ≤ length self.old.recorders }
        requires empty { ForSome (W.content store) (λ bytes. bytes ≡ []) }
        ensures attached { OnOk result (IsAttaching G.sound self.new × (self.new.attached ≡ suc self.old.attached)) }
        ensures store { (back : Stored) × (stores_in self.new ≡ stores_in self.old ++ back ∷ []) × (back.name ≡ W.name store) × (is_some back.bytes ≡ is_some (W.content store)) × (W.faults store ≤ back.faults)
            × OnErr result (Rose (W.faults store) back.faults × IfSome back.bytes (IsCut (format_next self.old))) }
        ensures write { OnErr result (result ≡ Err SessionFault.Write) }
        ensures players { self.new.players ≡ self.old.players }
        ensures same { (self.new.desk ≡ self.old.desk) × (self.new.gear ≡ record self.old.gear { playback = self.new.gear.playback }) × (length self.new.recorders ≡ length self.old.recorders) }
    {
        attach(&mut self.parts, store)
    }
}
