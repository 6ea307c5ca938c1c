//! Why a session failed.

use cycle_driver::CycleFault;
use thiserror::Error;

/// Why a session failed: reading its capture or a disk's file, or writing one of its files.
#[derive(Clone, Copy, PartialEq, Eq, Debug, Error)]
pub enum SessionFault {
    #[error("an input file can't be read")]
    Read,
    #[error("a file can't be written")]
    Write,
}
