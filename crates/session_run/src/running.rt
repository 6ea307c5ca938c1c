//! How a session is run.

use crate::session::Session;
use client_kinds::Guest;
use jack_host::{Gate, Source, Store};
use serial_run::run_serial;
use session_ends::SessionFault;
use session_threads::run_threads;
use std::sync::Wait;
use std::thread::Threads;

impl<S: Source + Send, W: Store + Send, G: Guest + Send> Session<S, W, G> {
    ghost use Rattle.std.specs.Prelude.{◌≡◌, ℕ, IsErrOf, IsNone, IsSome, OnErr, OnOk, length};
    ghost use Rattle.session_model.specs.Explanations.{Given};
    ghost use Rattle.wave_pcm.specs.Readings.{SameReading};
    ghost use Rattle.session_ends.specs.Seen.{AreLater, AreReadLater, HasRun, IsGiven, IsReady, OneRose, Runs, SourceRose, SerialKept, StandsInSerial, StandsSoFar, session_of, stores_in, told_of};
    ghost use Rattle.session_threads.specs.Running.{HasCome};

    /// Runs all phases of the script, in order. In serial mode these are the `do` calls of each, and then its cycles with the
    /// calls of the lanes before the first and behind each. In threads mode the lanes make their calls, the recorders fill their
    /// files, and the readers read those of the disks, while the cycles run; then it may wait for ever.
    ///
    /// It takes no memory but for a push in `mode steal`. A fault is answered only where a count of faults rose: `Read` that
    /// of the capture or of a disk, `Write` that of a store. Behind it each store has a front of its file, and only `take_store`,
    /// `take_disk` and `into_capture` may be called.
    pub fn run<T: Threads + Sync, R: Wait + Sync, K: Gate>(
        self,
        threads: &T,
        wait: &R,
        gate: &K,
    ) -> (Session<S, W, G>, Result<(), SessionFault>)
        requires { IsReady G.sound self }
        ensures runs { OnOk result.1 (Runs (session_of G.sound self) (session_of G.sound result.0)) }
        ensures ran { OnOk result.1 (HasRun G.sound result.0) }
        ensures kept { IsNone self.gear.script.header.threads → OnOk result.1 ((given : Given) → IsGiven (session_of G.sound self) given → SerialKept given (session_of G.sound result.0)) }
        ensures fault { IsNone self.gear.script.header.threads → OnErr result.1 ((given : Given) → IsGiven (session_of G.sound self) given → StandsInSerial given (told_of G.sound result.0)) }
        ensures so_far { IsSome self.gear.script.header.threads → OnErr result.1 ((kept : ℕ) × ((given : Given) → IsGiven (session_of G.sound self) given → StandsSoFar kept (told_of G.sound result.0) given)) }
        ensures come { IsSome self.gear.script.header.threads → OnErr result.1 (HasCome result.0.gear.script result.0.desk.history result.0.gear.numbers) }
        ensures script { result.0.gear.script ≡ self.gear.script }
        ensures stores { AreLater (stores_in self) (stores_in result.0) }
        ensures recorders { length result.0.recorders ≡ length self.recorders }
        ensures capture { SameReading self.gear.capture.reading result.0.gear.capture.reading }
        ensures players { AreReadLater self.players result.0.players }
        ensures read { IsErrOf result.1 SessionFault.Read → SourceRose self result.0 }
        ensures write { IsErrOf result.1 SessionFault.Write → OneRose (stores_in self) (stores_in result.0) }
    {
        let Session {
            segments,
            limits,
            lanes,
            is_serial,
            mut parts,
        } = self;
        if is_serial {
            let ran = run_serial(&mut parts, threads, gate, &segments, limits);
            let session = Session {
                segments,
                limits,
                lanes,
                is_serial,
                parts,
            };
            return (session, ran);
        }
        let ((parts, lanes), ran) = run_threads(
            parts, lanes, threads, wait, gate, &segments, limits,
        );
        let session = Session {
            segments,
            limits,
            lanes,
            is_serial,
            parts,
        };
        (session, ran)
    }
}
