//! The disk files of a play.

ghost use Rattle.std.specs.Prelude.{◌≡◌, ◌+◌, ◌<◌, ◌≤◌, ◌⊎◌, IfErr, IfOk, IsErrOf, OnErr, OnOk, length, map};
ghost use Rattle.jack_host.specs.Causes.{Rose};
ghost use Rattle.jack_host.specs.Files.{SameFiles};
ghost use Rattle.disk_inputs.specs.Openings.{AreFresh, AreOpened, HasOwnFault as HasOwnDiskFault, LacksDisk, UnfitAt};
ghost use Rattle.play_inputs.specs.Answers.{HasOwnFault};
ghost use Rattle.play_inputs.specs.Disks.{DisksStatus, difference_of as the_difference_of, status_of_against as the_status_of, what_of as the_what_of};

use crate::{Difference, Status, What};
use disk_inputs::{Against, Difference as DiskDifference, DiskFault, What as DiskWhat, open_disks};
use jack_host::Host;
use jack_types::Header;
use play_words::Names;
use std::alloc::Global;
use wave_pcm::Wave;

// The same number, among all that a play compares.
fn what_of(what: DiskWhat) -> What
    ensures { result ≡ the_what_of what }
{
    match what {
        DiskWhat::DiskRate => What::DiskRate,
        DiskWhat::DiskChannels => What::DiskChannels,
    }
}

fn difference_of(told: DiskDifference) -> Difference
    ensures { result ≡ the_difference_of told }
{
    Difference {
        what: what_of(told.what),
        script: told.script,
        given: told.given,
    }
}

// The status of what stands against a disk file.
fn status_of_against(against: Against) -> Status
    ensures status { result ≡ the_status_of against }
    ensures own { HasOwnDiskFault against → HasOwnFault result }
{
    match against {
        Against::Bad(fault) => Status::BadWave(fault),
        Against::Other(told) => Status::Differs(difference_of(told)),
    }
}

/// Opens the disk files of a play, each of the script's rate and of its own channels. Then so many objects of the host are out;
/// behind a fault all are handed back.
pub(crate) fn open_files<H: Host>(
    alloc: Global,
    host: &mut H,
    names: &Names<'_>,
    header: &Header,
) -> Result<Vec<Wave<H::In>>, Status>
    requires lent { H.lent host.old < 950 }
    requires many { length header.now.disks ≡ length names.now.disks }
    ensures opened { IfOk result (λ waves. AreOpened (H.files host.old) names.now.disks header.now.rate header.now.disks
        (map (λ wave. wave.left) waves.items)) }
    ensures fresh { IfOk result (λ waves. AreFresh header.now.rate header.now.disks waves.items) }
    ensures fault { IfErr result (DisksStatus (H.files host.old) names.now header.now) }
    ensures own { IfErr result HasOwnFault }
    ensures read { IsErrOf result Status.ReadFault → Rose (H.read_faults host.old) (H.read_faults host.new)
        ⊎ LacksDisk (H.files host.old) names.now.disks header.now.rate header.now.disks }

    ensures later { H.read_faults host.old ≤ H.read_faults host.new }
    ensures kept { OnOk result (H.read_faults host.new ≡ H.read_faults host.old) }
    ensures writes { H.write_faults host.new ≡ H.write_faults host.old }
    ensures files { SameFiles (H.files host.old) (H.files host.new) }
    ensures out { IfOk result (λ waves. H.lent host.new ≡ H.lent host.old + length waves.items) }
    ensures back { OnErr result (H.lent host.new ≡ H.lent host.old) }
{
    match open_disks(alloc, host, names, header.rate, header.disks.as_slice()) {
        Ok(waves) => Ok(waves),
        Err(DiskFault::Memory) => Err(Status::NoMemory),
        Err(DiskFault::Read) => Err(Status::ReadFault),
        Err(DiskFault::Unfit(_, against)) => Err(status_of_against(against)),
    }
}
