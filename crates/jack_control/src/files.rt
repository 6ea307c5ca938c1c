//! The files that a play makes.

ghost use Rattle.std.specs.Prelude.{◌≡◌, ◌+◌, ◌<◌, ◌≤◌, ◌⊎◌, [], ℕ, List, IfSome, IsTrue, OnErr, OnOk, Some, length, suc, take};
ghost use Rattle.jack_host.specs.Causes.{Adds, Rose};
ghost use Rattle.jack_host.specs.Files.{IsNamedThere, SameFiles, Stands, StandsInPart};
ghost use Rattle.run_laws.specs.Told.{text_in};
ghost use Rattle.session_run.specs.Seen.{session_of, stores_in};
ghost use Rattle.session_run.specs.Standings.{HasEnded, IsAttaching, format_next};
ghost use Rattle.driver_words.specs.Tapes.{IsCut};
ghost use Rattle.jack_control.specs.Files.{AllStand, AreApart, AreFronts, AreOut, AreRaised, Empties, IsPart, IsWhole, KeepsRest, MakesOne, OneFailed};
ghost use Rattle.jack_control.specs.Plays.{TouchesOnly, made_by};

use client_kinds::Guest;
use jack_host::{Failed, Host};
use play_words::Names;
use session_run::Session;

// Makes the file of a name, and attaches it. Where that fails no file was made, or the session keeps its store.
fn make_file<H: Host, G: Guest>(
    host: &mut H,
    name: &str,
    session: &mut Session<H::In, H::Out, G>,
) -> Result<(), Failed>
    requires out { H.lent host.old < 1000 }
    requires attaching { IsAttaching G.sound session.old }
    requires fewer { session.old.attached ≤ length session.old.recorders }
    ensures made { OnOk result (IsAttaching G.sound session.new × (session.new.attached ≡ suc session.old.attached) × MakesOne (H.files host.old) (H.files host.new) name.now session.old session.new) }
    ensures cut { OnErr result ((SameFiles (H.files host.old) (H.files host.new) × (session.new ≡ session.old) × Rose (H.write_faults host.old) (H.write_faults host.new))
        ⊎ ((one : MakesOne (H.files host.old) (H.files host.new) name.now session.old session.new) × (1 ≤ one.back.faults) × IfSome one.back.bytes (IsCut (format_next session.old)))) }
    ensures same { KeepsRest session.old session.new }
    ensures later { H.write_faults host.old ≤ H.write_faults host.new }
    ensures kept { OnOk result (H.write_faults host.new ≡ H.write_faults host.old) }
    ensures reads { H.read_faults host.new ≡ H.read_faults host.old }
    ensures lent { H.lent host.new + length (stores_in session.old) ≡ H.lent host.old + length (stores_in session.new) }
{
    let store = host.make_out(name)?;
    match session.attach(store) {
        Ok(()) => Ok(()),
        Err(_) => Err(Failed),
    }
}

/// Makes the files of a play and attaches them: the playback's, and then the recorders'. The first that fails ends it. So
/// many of the names were made then: they have no bytes yet, or still those that they had, as all others have.
pub(crate) fn make_files<H: Host, G: Guest>(
    host: &mut H,
    names: &Names<'_>,
    session: &mut Session<H::In, H::Out, G>,
) -> Result<(), Failed>
    requires out { H.lent host.old < 950 }
    requires attaching { IsAttaching G.sound session.old × (session.old.attached ≡ 0) × (stores_in session.old ≡ []) }
    requires recorders { length session.old.recorders ≡ length names.now.records }
    ensures made { OnOk result (IsAttaching G.sound session.new × (session.new.attached ≡ suc (length session.new.recorders)) × AreOut (H.files host.new) (made_by names.now) (stores_in session.new)) }
    ensures cut { OnErr result ((made : ℕ) × AreOut (H.files host.new) (take made (made_by names.now)) (stores_in session.new) × TouchesOnly (H.files host.old) (H.files host.new) (take made (made_by names.now))) }
    ensures fronts { AreFronts session.old (stores_in session.new) }
    ensures others { TouchesOnly (H.files host.old) (H.files host.new) (made_by names.now) }
    ensures empties { Empties (H.files host.old) (H.files host.new) }
    ensures cause { OnErr result (Rose (H.write_faults host.old) (H.write_faults host.new) ⊎ OneFailed (stores_in session.new)) }
    ensures same { KeepsRest session.old session.new }
    ensures later { H.write_faults host.old ≤ H.write_faults host.new }
    ensures kept { OnOk result (H.write_faults host.new ≡ H.write_faults host.old) }
    ensures reads { H.read_faults host.new ≡ H.read_faults host.old }
    ensures lent { H.lent host.new ≡ H.lent host.old + length (stores_in session.new) }
{
    make_file(host, names.playback, session)?;
    for recorder in 0..names.records() {
        make_file(host, names.record(recorder), session)?;
    }
    Ok(())
}

// Hands one store back, and gives it up where its file is not wanted.
fn hand_one<H: Host>(host: &mut H, store: H::Out, wanted: bool) -> Result<(), Failed>
    requires out { 0 < H.lent host.old }
    requires named { IsNamedThere (H.files host.old) (H.Out.name store) }
    ensures whole { OnOk result (IsTrue wanted → Stands (H.files host.old) (H.files host.new) (H.Out.name store) (H.Out.content store)) }
    ensures part { StandsInPart (H.files host.old) (H.files host.new) (H.Out.name store) (H.Out.content store) }
    ensures adds { Adds (H.write_faults host.old) (H.Out.faults store) (H.write_faults host.new) }
    ensures failed { OnErr result (Rose (H.write_faults host.old) (H.write_faults host.new)) }
    ensures kept { OnOk result (IsTrue wanted → H.write_faults host.new ≡ H.write_faults host.old) }
    ensures reads { H.read_faults host.new ≡ H.read_faults host.old }
    ensures lent { H.lent host.new + 1 ≡ H.lent host.old }
{
    if wanted {
        return host.done(store);
    }
    host.give_up(store);
    Ok(())
}

/// Hands all stores of a session back to the host, in the order of their names. Files that are not wanted are given up, and
/// answered by `Ok`.
pub(crate) fn hand_back<H: Host, G: Guest>(
    host: &mut H,
    session: &mut Session<H::In, H::Out, G>,
    wanted: bool,
) -> Result<(), Failed>
    requires lent { length (stores_in session.old) ≤ H.lent host.old }
    requires out { (names : List (List ℕ)) × AreOut (H.files host.old) names (stores_in session.old) × AreApart names }
    ensures whole { OnOk result (IsTrue wanted → AllStand IsWhole (H.files host.old) (H.files host.new) (stores_in session.old)) }
    ensures part { AllStand IsPart (H.files host.old) (H.files host.new) (stores_in session.old) }
    ensures none { stores_in session.new ≡ [] }
    ensures faults { AreRaised (stores_in session.old) (H.write_faults host.old) (H.write_faults host.new) }
    ensures later { H.write_faults host.old ≤ H.write_faults host.new }
    ensures failed { OnErr result (Rose (H.write_faults host.old) (H.write_faults host.new)) }
    ensures kept { OnOk result (IsTrue wanted → H.write_faults host.new ≡ H.write_faults host.old) }
    ensures report { text_in (session_of G.sound session.new) ≡ text_in (session_of G.sound session.old) }
    ensures ended { HasEnded G.sound session.old → HasEnded G.sound session.new }
    ensures capture { session.new.gear.capture ≡ session.old.gear.capture }
    ensures players { session.new.players ≡ session.old.players }
    ensures reads { H.read_faults host.new ≡ H.read_faults host.old }
    ensures lent { H.lent host.new + length (stores_in session.old) ≡ H.lent host.old }
{
    let mut handed = Ok(());
    'handing: while let Some(store) = session.take_store() {
        if hand_one(host, store, wanted).is_err() {
            handed = Err(Failed);
        }
    }
    handed
}
