//! Who plays a disk.

ghost use Rattle.std.specs.Prelude.{◌≡◌};
ghost use Rattle.std.specs.List.{list_any};
ghost use Rattle.session_model.specs.Courses.{is_disk};
ghost use Rattle.port_registry.specs.Registered.{open_clients};
ghost use Rattle.disk_feeds.specs.Cycling.{is_fed};

use jack_types::{Client, Kind};

/// Whether a client of this kind plays the disk.
fn is_on(kind: Kind, disk: u8) -> bool
    ensures { result ≡ is_disk disk kind }
{
    match kind {
        Kind::Disk { disk: other } => other == disk,
        _ => false,
    }
}

/// Whether one of these clients plays the disk.
fn has_player(nodes: &[Client], disk: u8) -> bool
    ensures { result ≡ list_any (λ client. is_disk disk client.kind) nodes.now }
{
    nodes.iter().any(|client| is_on(client.kind, disk))
}

/// Whether a client of these nodes plays the disk.
pub(crate) fn is_played(nodes: &[Client], disk: u8) -> bool
    ensures { result ≡ is_fed (open_clients nodes.now) disk }
{
    has_player(nodes, disk)
}
