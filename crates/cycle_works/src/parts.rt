//! The parts that a cycle moves.

use client_kinds::Guest;
use client_stage::Stage;
use client_stage::device_periods::Capture;
use client_stage::disk_feeds::DiskFeeds;
use graph_word::Reader;
use jack_host::Source;
use jack_types::Moment;
use midi_stage::MidiStage;
use midi_stage::cycle_plan::Plan;
use plan_transport::PlanTransport;
use recorder_rings::RecorderRings;
use wave_pcm::Wave;

/// The end of the publication that reads plans; the stage on which their clients play, and beside it what they play of MIDI; the
/// capture, the rings of disks, the transport and the recorders' rings; of each cycle so far the number that it took, and what the
/// transport showed; and the period of the next.
#[derive(Drop)]
pub(crate) struct Parts<S: Source, G: Guest> {
    pub reader: Reader<Plan>,
    pub stage: Stage<G>,
    pub midi: MidiStage,
    pub capture: Capture<S>,
    pub disks: DiskFeeds,
    pub transport: PlanTransport,
    pub rings: RecorderRings,
    pub numbers: Vec<u32>,
    pub moments: Vec<Moment>,
    pub set: u32,
}

impl<S: Source, G: Guest> Parts<S, G> {
    ghost use Rattle.std.specs.Prelude.{◌≡◌};

    /// The file of the capture.
    pub fn into_wave(self) -> Wave<S>
        ensures { result ≡ self.capture.reading }
    {
        self.capture.into_wave()
    }
}
