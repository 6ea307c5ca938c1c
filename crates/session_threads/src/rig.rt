//! What threads hand round.

use crate::lanes::Lanes;
use client_kinds::Guest;
use jack_host::{Source, Store};
use recorder_files::Recorder;
use session_works::disk_files::DiskReader;
use session_works::{Driver, SessionWorks};

/// The works of a session, and the turn in which the desk lies while threads run.
#[derive(Drop)]
pub(crate) struct Rig<S: Source, W: Store, G: Guest> {
    pub(crate) works: SessionWorks<S, W, G>,
    pub(crate) lanes: Lanes,
}

/// The works without the desk, which threads hand round meanwhile.
#[derive(Drop)]
pub(crate) struct Deck<S: Source, W: Store, G: Guest> {
    pub(crate) driver: Driver<S, W, G>,
    pub(crate) recorders: Vec<Recorder<W>>,
    pub(crate) readers: Vec<DiskReader<S>>,
}
