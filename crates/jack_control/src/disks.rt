//! The disk files of a play, handed back.

ghost use Rattle.std.specs.Prelude.{◌≡◌, ◌+◌, ◌≤◌, length};
ghost use Rattle.jack_host.specs.Causes.{Adds};
ghost use Rattle.jack_host.specs.Files.{SameFiles};
ghost use Rattle.jack_control.specs.Openings.{faults_in};

use client_kinds::Guest;
use jack_host::Host;
use session_run::Session;
use wave_pcm::Wave;

/// Hands files back of which no session was made.
pub(crate) fn back_waves<H: Host>(host: &mut H, mut waves: Vec<Wave<H::In>>)
    requires out { length waves.items ≤ H.lent host.old }
    ensures later { H.read_faults host.old ≤ H.read_faults host.new }
    ensures writes { H.write_faults host.new ≡ H.write_faults host.old }
    ensures files { SameFiles (H.files host.old) (H.files host.new) }
    ensures lent { H.lent host.new + length waves.items ≡ H.lent host.old }
{
    'handing: while let Some(wave) = waves.pop() {
        host.back(wave.into_source());
    }
}

/// Hands the disk files of a session back, in the order of opening.
pub(crate) fn back_disks<H: Host, G: Guest>(host: &mut H, session: &mut Session<H::In, H::Out, G>)
    requires out { length session.old.players ≤ H.lent host.old }
    ensures reads { Adds (H.read_faults host.old) (faults_in session.old.players) (H.read_faults host.new) }
    ensures no_more { H.read_faults host.new ≤ H.read_faults host.old + faults_in session.old.players }
    ensures writes { H.write_faults host.new ≡ H.write_faults host.old }
    ensures files { SameFiles (H.files host.old) (H.files host.new) }
    ensures gear { session.new.gear ≡ session.old.gear }
    ensures lent { H.lent host.new + length session.old.players ≡ H.lent host.old }
{
    'handing: while let Some(source) = session.take_disk() {
        host.back(source);
    }
}
