//! What a connection into a playback port brings.

ghost use Rattle.std.specs.Prelude.{◌≡◌, []};
ghost use Rattle.client_wiring.specs.declared.joints.Sound.TheVariants.{Played};
ghost use Rattle.playback_mix.specs.Mixes.{sound_in};

use client_benches::ClientBench;
use client_kinds::Guest;
use client_wiring::Sound;
use device_periods::Capture;
use jack_host::Source;

/// What a bench's output gave when it was last played, nothing where there is no such bench or output.
fn played<G: Guest>(benches: &[ClientBench<G>], node: usize, output: usize) -> &[i32]
    ensures { result.now ≡ sound_in benches.now [] (Played node output) }
{
    if node < benches.len() {
        benches[node].output(output)
    } else {
        &[]
    }
}

/// The samples of a sound.
pub(crate) fn samples_of<'a, G: Guest, S: Source>(
    sound: Sound,
    benches: &'a [ClientBench<G>],
    capture: &'a Capture<S>,
) -> &'a [i32]
    ensures { result.now ≡ sound_in benches.now capture.now.channels sound }
{
    match sound {
        Sound::Played { node, output } => played(benches, node, output),
        Sound::Captured { channel } => capture.channel(channel),
    }
}
