//! How a session's stores come out, and the sources of its disks.

ghost use Rattle.std.specs.Prelude.{◌≡◌, ◌∷◌, [], IfNone, IfSome, None, map};
ghost use Rattle.recorder_files.specs.Recorders.{Recording};
ghost use Rattle.session_works.specs.RunWords.{Playing, text_in};
ghost use Rattle.session_works.specs.Parts.{session_of, stores_in};
ghost use Rattle.session_works.specs.Standings.{HasEnded};
ghost use Rattle.session_ends.specs.Takings.{stores_of};

use client_kinds::Guest;
use jack_host::{Source, Store};
use recorder_files::Recorder;
use session_works::SessionParts;

/// Takes the next store out, in the order of attaching, None exactly behind the last.
pub fn take_store<S: Source, W: Store, G: Guest>(parts: &mut SessionParts<S, W, G>) -> Option<W>
    ensures taken { IfSome result (λ w. stores_in parts.old ≡ record { name = W.name w; bytes = W.content w; faults = W.faults w } ∷ stores_in parts.new) }
    ensures none { IfNone result ((stores_in parts.old ≡ []) × (stores_in parts.new ≡ [])) }
    ensures report { text_in (session_of G.sound parts.new) ≡ text_in (session_of G.sound parts.old) }
    ensures ended { HasEnded G.sound parts.old → HasEnded G.sound parts.new }
    ensures gear { parts.new.gear ≡ record parts.old.gear { playback = None } }
    ensures players { parts.new.players ≡ parts.old.players }
{
    let file = parts.works.driver.close();
    let store = parts.playback.take();
    if let Some(file) = file {
        return Some(file.stop());
    }
    if let Some(store) = store {
        return Some(store);
    }
    take_recorded(&mut parts.works.recorders)
}

/// Takes the source of the next disk out, in the order of opening, None exactly behind the last.
pub fn take_disk<S: Source, W: Store, G: Guest>(parts: &mut SessionParts<S, W, G>) -> Option<S>
    ensures taken { IfSome result (λ source. (player : Playing) × (parts.old.players ≡ player ∷ parts.new.players) × (S.faults source ≡ player.faults)) }
    ensures none { IfNone result ((parts.old.players ≡ []) × (parts.new.players ≡ [])) }
    ensures report { text_in (session_of G.sound parts.new) ≡ text_in (session_of G.sound parts.old) }
    ensures same { parts.new ≡ record parts.old { players = parts.new.players } }
{
    if parts.works.readers.is_empty() {
        return None;
    }
    let reader = parts.works.readers.remove(0);
    Some(reader.into_source())
}

/// Takes the first store of recorders that is there out.
fn take_recorded<W: Store>(recorders: &mut Vec<Recorder<W>>) -> Option<W>
    ensures taken { IfSome result (λ w. stores_of recorders.old.items ≡ record { name = W.name w; bytes = W.content w; faults = W.faults w } ∷ stores_of recorders.new.items) }
    ensures none { IfNone result ((stores_of recorders.old.items ≡ []) × (stores_of recorders.new.items ≡ [])) }
    ensures getting { map (λ (r : Recording). r.getting) recorders.new.items ≡ map (λ (r : Recording). r.getting) recorders.old.items }
    ensures blocks { map (λ (r : Recording). r.blocks) recorders.new.items ≡ map (λ (r : Recording). r.blocks) recorders.old.items }
{
    for recorder in 0..recorders.len() {
        if let Some(store) = recorders[recorder].take() {
            return Some(store);
        }
    }
    None
}
