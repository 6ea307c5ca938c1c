//! Who records on a recorder.

ghost use Rattle.std.specs.Prelude.{◌≡◌, ◌<◌, length, position};
ghost use Rattle.session_model.specs.Benches.{node_at};
ghost use Rattle.session_model.specs.Recorders.{is_tape};
ghost use Rattle.session_model.specs.State.{OpenClient};
ghost use Rattle.port_registry.specs.Registered.{open_clients};

use jack_types::{Client, Kind};

/// Whether a client of this kind records on the recorder.
fn is_on(kind: Kind, recorder: u8) -> bool
    ensures { result ≡ is_tape recorder kind }
{
    match kind {
        Kind::Tape { recorder: other } => other == recorder,
        _ => false,
    }
}

/// The kind of the client of a node.
fn kind_of(nodes: &[Client], n: usize) -> Kind
    requires { n < length nodes.now }
    ensures { result ≡ (node_at (open_clients nodes.now) n).kind }
{
    nodes[n].kind
}

/// The node of the first client that records on the recorder, if there is one.
pub(crate) fn tape_place(nodes: &[Client], recorder: u8) -> Option<usize>
    ensures { result ≡ position (λ (client : OpenClient). is_tape recorder client.kind) (open_clients nodes.now) }
{
    for n in 0..nodes.len() {
        if is_on(kind_of(nodes, n), recorder) {
            return Some(n);
        }
    }
    None
}
