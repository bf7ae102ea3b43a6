// Why a job of the bench ends early.

use std::alloc::{AllocError, AllocFailed};
use std::fmt;
use std::io::{self, ErrorKind};

/// A call of a store.
#[derive(Clone, Copy)]
pub enum Call {
    Format,
    Open,
    Put,
    Get,
    Flush,
    Convert,
    Merge,
}

impl fmt::Display for Call {
    fn fmt<W: fmt::Write>(&self, f: &mut fmt::Formatter<W>) -> fmt::Result {
        match self {
            Call::Format => write!(f, "a format"),
            Call::Open => write!(f, "an opening"),
            Call::Put => write!(f, "a put"),
            Call::Get => write!(f, "a get"),
            Call::Flush => write!(f, "a flush"),
            Call::Convert => write!(f, "a step of conversion"),
            Call::Merge => write!(f, "a step of merging"),
        }
    }
}

/// Why a job ends early. It owns nothing, so a call that passes it on has nothing to drop.
#[derive(Clone, Copy)]
pub enum BenchError {
    /// The words name no job.
    Words,
    /// The store refused a call.
    Refused(Call),
    /// A get did not find the value that was put, or found a value of an absent key.
    Wrong,
    /// The clock, a file or the output failed.
    System(ErrorKind),
    /// Out of memory.
    NoMemory,
}

impl fmt::Display for BenchError {
    fn fmt<W: fmt::Write>(&self, f: &mut fmt::Formatter<W>) -> fmt::Result {
        match self {
            BenchError::Words => write!(f, "the words name no job"),
            BenchError::Refused(call) => write!(f, "the store refused {call}"),
            BenchError::Wrong => write!(
                f,
                "a look did not find what is there, or found what is not"
            ),
            BenchError::System(kind) => write!(f, "{kind}"),
            BenchError::NoMemory => write!(f, "no memory was found"),
        }
    }
}

impl From<io::Error> for BenchError {
    fn from(error: io::Error) -> BenchError {
        BenchError::System(error.kind())
    }
}

impl From<AllocError> for BenchError {
    fn from(_error: AllocError) -> BenchError {
        BenchError::NoMemory
    }
}

impl<T: Drop> From<AllocFailed<T>> for BenchError {
    fn from(_error: AllocFailed<T>) -> BenchError {
        BenchError::NoMemory
    }
}
