use thiserror::Error;

/// The one fault of a device. The device counts the calls that answer it.
#[derive(Clone, Copy, Debug, Drop, Error, PartialEq, Eq)]
#[error("the device failed")]
pub struct Failed;
