//! The works of a session: what goes on while it runs.

use client_kinds::Guest;
use cycle_driver::Driver;
use disk_runs::disk_files::DiskReader;
use jack_host::{Source, Store};
use recorder_files::Recorder;
use serial_laws::control_desk::Desk;

/// The desk that makes the calls, the driver that runs the cycles, the recorders in their order, and the readers of the disks
/// in theirs.
#[derive(Drop)]
pub struct SessionWorks<S: Source, W: Store, G: Guest> {
    pub desk: Desk,
    pub driver: Driver<S, W, G>,
    pub recorders: Vec<Recorder<W>>,
    pub readers: Vec<DiskReader<S>>,
}
