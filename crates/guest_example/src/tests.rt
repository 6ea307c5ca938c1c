use super::Tremolo;
use client_kinds::{Guest, Shape};
use jack_types::{Moment, TransportState};

const STEREO: Shape = Shape {
    inputs: 2,
    outputs: 2,
    period: 8,
};

/// What a tremolo plays in a cycle, where it hears 400 on both sides.
fn play(tremolo: &mut Tremolo, state: TransportState, frame: u16) -> [i32; 16] {
    let moment = Moment {
        cycle: 1,
        state,
        frame: u32::from(frame),
        rate: 48_000,
        bbt: None,
    };
    let mut output = [0; 16];
    tremolo.process(&moment, STEREO, &[400; 16], &mut output);
    output
}

#[test]
fn a_steady_sound_goes_from_side_to_side(rt: HostRuntime) {
    let mut tremolo = Tremolo::new(4);
    let played = play(&mut tremolo, TransportState::Stopped, 0);
    let left_and_right = [
        0, 100, 200, 300, 400, 300, 200, 100, 400, 300, 200, 100, 0, 100, 200, 300,
    ];
    assert_eq!(rt; played, left_and_right);
}

#[test]
fn the_transport_says_where_the_wave_is(rt: HostRuntime) {
    let mut tremolo = Tremolo::new(4);
    for (state, frame, first) in [
        (TransportState::Rolling, 3, 300),
        (TransportState::Stopped, 0, 300),
        (TransportState::Rolling, 6, 200),
    ] {
        let played = play(&mut tremolo, state, frame);
        assert_eq!(rt; played[0], first, "at frame {frame}");
    }
}
