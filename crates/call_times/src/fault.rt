//! Why no times could be taken.
use std::io;
use thiserror::Error;
use turn_loops::{OpenError, OutOfMemory};
use weak_intern::MakeError;

/// Why no times could be taken.
#[derive(Debug, Error, Drop)]
pub enum Fault {
    #[error("call_times: no domain could be opened")]
    Domain(#[from] OpenError),
    #[error("call_times: out of memory")]
    Memory(#[from] OutOfMemory),
    #[error("call_times: no queue could be laid")]
    Queue,
    #[error("call_times: a turn was refused")]
    Turns,
    #[error("call_times: no clock, or no output")]
    Host(#[from] io::Error),
}

impl From<MakeError> for Fault {
    fn from(_error: MakeError) -> Fault {
        Fault::Queue
    }
}
