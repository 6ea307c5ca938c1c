//! Why a cycle failed.

use thiserror::Error;

/// Why a cycle failed: reading its capture, or writing its playback.
#[derive(Clone, Copy, PartialEq, Eq, Debug, Error)]
pub enum CycleFault {
    #[error("the capture can't be read")]
    Read,
    #[error("the playback can't be written")]
    Write,
}
