//! Why the examples didn't run to their end.
use cdrc::{OpenError, OutOfMemory};
use std::io;
use thiserror::Error;

/// Why the examples didn't run to their end.
#[derive(Debug, Error, Drop)]
pub enum Fault {
    #[error("example_threads: no domain could be opened")]
    Domain(#[from] OpenError),
    #[error("example_threads: a seat has not left its domain")]
    Stayed,
    #[error("example_threads: out of memory")]
    Memory(#[from] OutOfMemory),
    #[error("example_threads: no output")]
    Host(#[from] io::Error),
}
