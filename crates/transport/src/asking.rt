//! What the changes of a cycle ask of the transport.

ghost use Rattle.std.specs.Prelude.{◌≡◌, ◌≤◌, if◌then◌else◌};
ghost use Rattle.std.specs.Option.{ForSome};
ghost use Rattle.session_model.specs.Transport.{asked_state, asked_frame, last_asked, last_target};
ghost use Rattle.transport.specs.Standings.{is_target, with_targets};

use jack_types::{Change, Command, TransportState};

/// The greatest frame that a locate may name.
const MOST_TARGET: u32 = 2_147_483_647;

/// The state asked for behind a command.
fn state_behind(before: Option<TransportState>, command: &Command) -> Option<TransportState>
    ensures { result ≡ asked_state before command.now }
{
    match command {
        Command::Start => Some(TransportState::Starting),
        Command::Stop => Some(TransportState::Stopped),
        _ => before,
    }
}

/// The frame asked for behind a command. A locate out of its range asks for nothing.
fn frame_behind(before: Option<u32>, command: &Command) -> Option<u32>
    requires { ForSome before (λ frame. frame ≤ 2147483647) }
    ensures value { result ≡ (if is_target command.now then asked_frame before command.now else before) }
    ensures bound { ForSome result (λ frame. frame ≤ 2147483647) }
{
    match command {
        Command::Locate { frame } if *frame <= MOST_TARGET => Some(*frame),
        _ => before,
    }
}

/// The state that the last start or stop asks for.
pub fn state_asked(changes: &[Change]) -> Option<TransportState>
    ensures { result ≡ last_asked (with_targets changes.now) }
{
    let mut asked = None;
    for change in changes {
        asked = state_behind(asked, &change.command);
    }
    asked
}

/// The frame of the last locate in its range.
pub fn frame_asked(changes: &[Change]) -> Option<u32>
    ensures value { result ≡ last_target (with_targets changes.now) }
    ensures bound { ForSome result (λ frame. frame ≤ 2147483647) }
{
    let mut asked = None;
    for change in changes {
        asked = frame_behind(asked, &change.command);
    }
    asked
}
