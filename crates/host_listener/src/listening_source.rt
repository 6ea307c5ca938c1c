//! A source that keeps the first bytes of what is read of it.

use crate::fronts::Front;
use jack_host::{Failed, Source};

/// A source in front of another one, which keeps the first bytes of what is read. It tells what that one tells.
#[derive(Drop)]
pub struct ListeningSource<S> {
    pub(crate) inner: S,
    // How many files were opened before it.
    pub(crate) place: usize,
    pub(crate) front: Option<Front>,
}

impl<S: Source> Source for ListeningSource<S> {
    ghost left = { λ s. S.left s.inner };

    ghost faults = { λ s. S.faults s.inner };

    fn read(&mut self, buffer: &mut [u8]) -> Result<usize, Failed> {
        let count = self.inner.read(buffer)?;
        if let Some(front) = &mut self.front {
            front.hear(&buffer[..count]);
        }
        Ok(count)
    }
}
