//! Sources of tests.

use host_memory::MemorySource;
use jack_host::{Failed, Source};
use std::alloc::Global;
use std::process::Abort;

/// No read, since reads are counted from 1.
pub(crate) const NONE: u32 = 0;

/// A source that gives one byte of another one at a read.
#[derive(Drop)]
pub(crate) struct Slow<S> {
    pub(crate) source: S,
}

impl<S: Source> Source for Slow<S> {
    ghost left = { λ s. S.left s.source };

    ghost faults = { λ s. S.faults s.source };

    fn read(&mut self, buffer: &mut [u8]) -> Result<usize, Failed> {
        let room = buffer.len().min(1);
        match self.source.read(&mut buffer[..room]) {
            Ok(count) => Ok(count),
            Err(failed) => Err(failed),
        }
    }
}

/// A source of these bytes whose read of this number fails.
pub(crate) fn source_of(
    rt: &impl Abort,
    alloc: Global,
    bytes: &[u8],
    refused: u32,
) -> MemorySource {
    let bytes = bytes.to_vec(alloc).expect(rt, "memory");
    let mut source = MemorySource::new(alloc, bytes);
    assert!(rt; source.refuse(refused).is_ok());
    source
}

/// A source of these bytes, one at a read.
pub(crate) fn slow_source(rt: &impl Abort, alloc: Global, bytes: &[u8]) -> Slow<MemorySource> {
    Slow {
        source: source_of(rt, alloc, bytes, NONE),
    }
}
