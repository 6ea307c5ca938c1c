//! How a session's stores are attached.

ghost use Rattle.std.specs.Prelude.{◌≡◌, ◌≤◌, ◌++◌, ◌∷◌, [], Err, IfSome, IsFalse, IsTrue, None, OnErr, OnOk, Some, is_some, length, slice_get, slice_set, suc};
ghost use Rattle.std.specs.Option.{ForSome};
ghost use Rattle.jack_host.specs.Causes.{Rose};
ghost use Rattle.session_model.specs.WaveFiles.{IsFormat};
ghost use Rattle.driver_words.specs.Tapes.{IsCut, Tape};
ghost use Rattle.recorder_files.specs.Recorders.{Recording, Stored};
ghost use Rattle.session_works.specs.Drivers.{playback_format};
ghost use Rattle.session_works.specs.Parts.{stores_in};
ghost use Rattle.session_works.specs.Standings.{IsAttaching, format_next};
ghost use Rattle.session_ends.specs.Attaching.{Refuses, Starts, StartsNext};

use client_kinds::Guest;
use jack_host::{Source, Store};
use session_works::{SessionFault, SessionParts};

/// Starts a file in an empty store: the playback's first, and then the recorders' in order. On a fault the store is kept.
pub fn attach<S: Source, W: Store, G: Guest>(
    parts: &mut SessionParts<S, W, G>,
    store: W,
) -> Result<(), SessionFault>
    requires attaching { IsAttaching G.sound parts.old }
    requires fewer { parts.old.attached ≤ length parts.old.recorders }
    requires empty { ForSome (W.content store) (λ bytes. bytes ≡ []) }
    ensures attached { OnOk result (IsAttaching G.sound parts.new × (parts.new.attached ≡ suc parts.old.attached)) }
    ensures store { (back : Stored) × (stores_in parts.new ≡ stores_in parts.old ++ back ∷ []) × (back.name ≡ W.name store) × (is_some back.bytes ≡ is_some (W.content store)) × (W.faults store ≤ back.faults)
        × OnErr result (Rose (W.faults store) back.faults × IfSome back.bytes (IsCut (format_next parts.old))) }
    ensures write { OnErr result (result ≡ Err SessionFault.Write) }
    ensures players { parts.new.players ≡ parts.old.players }
    ensures same { (parts.new.desk ≡ parts.old.desk) × (parts.new.gear ≡ record parts.old.gear { playback = parts.new.gear.playback }) × (length parts.new.recorders ≡ length parts.old.recorders) }
{
    if !start_next(parts, store) {
        return Err(SessionFault::Write);
    }
    parts.attached += 1;
    Ok(())
}

/// Starts the file of the next place. Where that fails, the store is kept.
fn start_next<S: Source, W: Store, G: Guest>(parts: &mut SessionParts<S, W, G>, store: W) -> bool
    requires attaching { IsAttaching G.sound parts.old }
    requires fewer { parts.old.attached ≤ length parts.old.recorders }
    requires empty { ForSome (W.content store) (λ bytes. bytes ≡ []) }
    ensures { StartsNext G.sound (record { name = W.name store; bytes = W.content store; faults = W.faults store }) parts.old result parts.new }
{
    if parts.attached == 0 {
        return attach_playback(parts, store);
    }
    let recorder = parts.attached - 1;
    attach_recorder(parts, recorder, store)
}

/// Starts the playback's file. Where that fails, the store is kept.
fn attach_playback<S: Source, W: Store, G: Guest>(
    parts: &mut SessionParts<S, W, G>,
    store: W,
) -> bool
    requires none { parts.old.gear.playback ≡ None }
    requires empty { ForSome (W.content store) (λ bytes. bytes ≡ []) }
    ensures started { IsTrue result → (tape : Tape) × Starts (playback_format parts.old.gear.script) (record { name = W.name store; bytes = W.content store; faults = W.faults store }) tape
        × (parts.new ≡ record parts.old { gear = record parts.old.gear { playback = Some tape } }) }
    ensures kept { IsFalse result → (back : Stored) × Refuses (playback_format parts.old.gear.script) (record { name = W.name store; bytes = W.content store; faults = W.faults store }) back
        × (parts.new ≡ record parts.old { playback = Some back }) }
{
    match parts.works.driver.attach(store) {
        Ok(()) => true,
        Err((store, _)) => {
            parts.playback = Some(store);
            false
        }
    }
}

/// Starts a recorder's file. Where that fails, the recorder keeps the store.
fn attach_recorder<S: Source, W: Store, G: Guest>(
    parts: &mut SessionParts<S, W, G>,
    recorder: usize,
    store: W,
) -> bool
    requires there { (r : Recording) × (slice_get parts.old.recorders recorder ≡ Some r) × (r.tape ≡ None) × (r.store ≡ None) × IsFormat r.format }
    requires empty { ForSome (W.content store) (λ bytes. bytes ≡ []) }
    ensures started { IsTrue result → (r : Recording) → slice_get parts.old.recorders recorder ≡ Some r → (tape : Tape) × Starts r.format (record { name = W.name store; bytes = W.content store; faults = W.faults store }) tape
        × (parts.new ≡ record parts.old { recorders = slice_set parts.old.recorders recorder (record r { tape = Some tape }) }) }
    ensures kept { IsFalse result → (r : Recording) → slice_get parts.old.recorders recorder ≡ Some r → (back : Stored) × Refuses r.format (record { name = W.name store; bytes = W.content store; faults = W.faults store }) back
        × (parts.new ≡ record parts.old { recorders = slice_set parts.old.recorders recorder (record r { store = Some back }) }) }
{
    parts.works.recorders[recorder].attach(store).is_ok()
}
