//! Why a job was not done.

use segment_store::StoreFault;
use thiserror::Error;

/// Why a job of a member was not done.
#[derive(Clone, Copy, Debug, PartialEq, Eq, Error)]
pub enum WorkFault {
    /// No store of the member is there.
    #[error("there is no store of this member")]
    NoStore,
    /// The store is of another stream or member, or the job does not continue its log.
    #[error("the job does not continue the log of the store")]
    Apart,
    /// The store did not do it.
    #[error("{0}")]
    Store(StoreFault),
}
