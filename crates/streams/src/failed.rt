//! A failed write or read.

use thiserror::Error;

/// A write or a read failed. The sink or the feed has counted it.
#[derive(Clone, Copy, Debug, PartialEq, Eq, Error)]
#[error("a write or a read failed")]
pub struct Failed;
