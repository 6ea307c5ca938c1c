//! The comparisons of a script with what it is played with.

ghost use Rattle.std.specs.Prelude.{◌≡◌, ◌≤◌};
ghost use Rattle.play_inputs.specs.Inputs.{difference_in, first_difference};

use crate::{Difference, What};
use jack_types::{Format, Header};
use script_needs::guests as guests_needed;
use session_script::Script;

/// The first comparison that fails of those that need no capture: so many guests, files of recorders, and disk files.
pub(crate) fn difference_of(
    script: &Script,
    guests: usize,
    records: usize,
    disks: usize,
) -> Option<Difference>
    requires few { (records ≤ 4) × (disks ≤ 4) }
    ensures { result ≡ first_difference script.now guests records disks }
{
    let needed = guests_needed(script);
    if guests < needed as usize {
        return Some(Difference {
            what: What::Guests,
            script: needed,
            given: guests as u32,
        });
    }
    let header = script.header();
    let recorders = header.recorders.as_slice().len();
    if recorders != records {
        return Some(Difference {
            what: What::Records,
            script: recorders as u32,
            given: records as u32,
        });
    }
    let files = header.disks.as_slice().len();
    if files != disks {
        return Some(Difference {
            what: What::Disks,
            script: files as u32,
            given: disks as u32,
        });
    }
    None
}

/// The first comparison with a capture's format that fails.
pub(crate) fn difference_with(header: &Header, format: Format) -> Option<Difference>
    ensures { result ≡ difference_in header.now format }
{
    if header.rate != format.rate {
        return Some(Difference {
            what: What::Rate,
            script: header.rate,
            given: format.rate,
        });
    }
    if header.capture != format.channels {
        return Some(Difference {
            what: What::Channels,
            script: u32::from(header.capture),
            given: u32::from(format.channels),
        });
    }
    None
}
