//! How a block is laid.

ghost use Rattle.std.specs.Prelude.{◌≡◌, ◌*◌, ◌<◌, ◌≤◌, [], length, slice_index_or, slice_set};
ghost use Rattle.recorder_rings.specs.Sending.{block_at, channels_at};
ghost use Rattle.bench_rack.specs.Racks.{bench_at};
ghost use Rattle.cycle_blocks.specs.Blocks.{heard_at};

use bench_rack::Rack;
use client_kinds::Guest;
use recorder_rings::RecorderRings;

/// What an input of the bench at a place got when it was last played; nothing where there is no such bench or input.
fn sound_of<G: Guest>(rack: &Rack<G>, place: usize, input: usize) -> &[i32]
    ensures { result.now ≡ slice_index_or (bench_at rack.now place).kept.sounds input [] }
{
    if place < rack.len() {
        rack.sound(place, input)
    } else {
        &[]
    }
}

/// Lays what the client of a node heard into the block of a recorder, channel by channel.
pub(crate) fn lay_block<G: Guest>(
    rings: &mut RecorderRings,
    rack: &Rack<G>,
    place: usize,
    recorder: u8,
    period: u32,
)
    requires there { recorder < length rings.old.rings }
    requires period { period ≤ rings.old.room }
    ensures block { block_at rings.new recorder ≡ heard_at rack.now period (channels_at rings.old recorder) place }
    ensures length { length (block_at rings.new recorder) ≡ period * channels_at rings.old recorder }
    ensures others { rings.new ≡ record rings.old { blocks = slice_set rings.old.blocks recorder (block_at rings.new recorder) } }
{
    rings.begin(recorder, period);
    let channels = rings.channels(recorder);
    for channel in 0..channels {
        let samples = sound_of(rack, place, usize::from(channel));
        rings.lay(recorder, period, channel, samples);
    }
}
