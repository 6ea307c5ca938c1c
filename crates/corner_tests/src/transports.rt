ghost use Rattle.std.specs.Prelude.{◌≡◌};

use jack_types::{Change, Command, TransportState};
use transport::Transport;

fn change(command: Command) -> Change
    ensures number { result.number ≡ 1 }
    ensures command { result.command ≡ command }
{
    Change { number: 1, command }
}

#[test]
fn a_locate_out_of_its_range_is_left_out_alone(rt: HostRuntime) {
    let asked = [
        change(Command::Start),
        change(Command::Locate { frame: 1000 }),
        change(Command::Locate {
            frame: 2_147_483_648,
        }),
    ];
    let mut transport = Transport::new(48000);
    let first = transport.step(&asked, &[], 1500, None, 64);
    assert!(rt; (first.state, first.frame) == (TransportState::Starting, 0));
    let second = transport.step(&[], &[], 1500, None, 64);
    assert!(rt; (second.state, second.frame) == (TransportState::Starting, 1000));
}
