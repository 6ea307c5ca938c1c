//! How a session's files are finished.

ghost use Rattle.std.specs.Prelude.{◌≡◌, Err, IsNone, IsSome, OnErr, OnOk, length};
ghost use Rattle.session_model.specs.Explanations.{Given};
ghost use Rattle.session_model.specs.Scripts.{phases};
ghost use Rattle.driver_laws.specs.Drivers.{run};
ghost use Rattle.session_works.specs.RunWords.{AtPhase, Ends, SerialKept, StandsSoFar};
ghost use Rattle.session_works.specs.SerialWords.{StandsInSerial};
ghost use Rattle.session_works.specs.Drivers.{driver_of};
ghost use Rattle.session_works.specs.Parts.{AreLater, OneRose, session_of, stores_in, told_of};
ghost use Rattle.session_works.specs.Standings.{HasEnded, HasRun};
ghost use Rattle.session_works.specs.declared.faults.SessionFault.TheVariants.{Write};
ghost use Rattle.session_ends.specs.Endings.{StopsInOrder};

use crate::closing::{close_playback, close_recorders};
use crate::laws::an_end_in_either_mode;
use client_kinds::Guest;
use jack_host::{Source, Store};
use session_works::{SessionFault, SessionParts};

/// Empties the rings and finishes the files: the recorders' in order, and then the playback's. Behind a fault, which is always
/// `Write`, each store has a front of its file.
pub fn end<S: Source, W: Store, G: Guest>(
    parts: &mut SessionParts<S, W, G>,
    ring: u32,
) -> Result<(), SessionFault>
    requires ran { HasRun G.sound parts.old }
    requires ring { ring ≡ parts.old.gear.script.header.ring }
    ensures ends { OnOk result ((given : Given) → AtPhase (session_of G.sound parts.old) given (length (phases parts.old.gear.script)) → Ends given (session_of G.sound parts.old) (session_of G.sound parts.new)) }
    ensures ended { OnOk result (HasEnded G.sound parts.new) }
    ensures told { OnOk result (told_of G.sound parts.new ≡ session_of G.sound parts.new) }
    ensures fault { IsNone parts.old.gear.script.header.threads → OnErr result ((given : Given) → SerialKept given (session_of G.sound parts.old) → StandsInSerial given (told_of G.sound parts.new)) }
    ensures so_far { IsSome parts.old.gear.script.header.threads → OnErr result ((given : Given) → AtPhase (session_of G.sound parts.old) given (length (phases parts.old.gear.script)) → StandsSoFar (run (driver_of G.sound parts.old.gear)) (told_of G.sound parts.new) given) }
    ensures stores { AreLater (stores_in parts.old) (stores_in parts.new) }
    ensures write { OnErr result (result ≡ Err Write) }
    ensures cause { OnErr result (OneRose (stores_in parts.old) (stores_in parts.new)) }
    ensures order { OnErr result (StopsInOrder parts.old parts.new) }
    ensures recorders { length parts.new.recorders ≡ length parts.old.recorders }
    ensures desk { parts.new.desk ≡ parts.old.desk }
    ensures players { parts.new.players ≡ parts.old.players }
    ensures numbers { parts.new.gear.numbers ≡ parts.old.gear.numbers }
    ensures script { parts.new.gear.script ≡ parts.old.gear.script }
    ensures capture { parts.new.gear.capture ≡ parts.old.gear.capture }
{
    an_end_in_either_mode();
    if close_recorders(&mut parts.works, ring).is_err() {
        return Err(SessionFault::Write);
    }
    if close_playback(&mut parts.works.driver, &mut parts.playback).is_err() {
        return Err(SessionFault::Write);
    }
    Ok(())
}
