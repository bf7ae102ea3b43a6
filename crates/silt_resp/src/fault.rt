// What ends a client's stream, and why a command is not done.
ghost use Rattle.std.specs.Prelude.{◌≡◌};

use crate::table::CommandName;
use std::alloc::{AllocError, AllocFailed};

/// Why the bytes of a client begin no command. Nothing behind them is read.
#[derive(Clone, Copy, Debug, PartialEq, Eq)]
pub enum ProtocolFault {
    /// A command without marks has too many bytes.
    InlineTooLong,
    /// The line of a number of words has too many bytes.
    CountTooLong,
    /// The line of a word's length has too many bytes.
    LengthTooLong,
    /// The number of words is none, or too large.
    BadCount,
    /// The length of a word is none, or too large.
    BadLength,
    /// A word's length has no mark in front.
    NoDollar,
    /// A word or its length does not end with a carriage return and a line feed.
    NoCrLf,
}

impl ProtocolFault {
    ghost use Rattle.silt_resp.specs.Faults.{protocol_text};

    /// The fault in words, as clients read it.
    pub fn text(self) -> &'static str
        ensures { result.now ≡ protocol_text self }
    {
        match self {
            ProtocolFault::InlineTooLong => "too big inline request",
            ProtocolFault::CountTooLong => "too big mbulk count string",
            ProtocolFault::LengthTooLong => "too big bulk count string",
            ProtocolFault::BadCount => "invalid multibulk length",
            ProtocolFault::BadLength => "invalid bulk length",
            ProtocolFault::NoDollar => "expected '$'",
            ProtocolFault::NoCrLf => "expected CRLF",
        }
    }
}

/// Why a command is not done. `specs/Faults` has the texts.
#[derive(Clone, Copy, Debug, PartialEq, Eq)]
pub enum CommandFault {
    /// A key has too many bytes.
    LongKey,
    /// A value has more bytes than this.
    LongValue(usize),
    /// The values that it asks for or brings have too many bytes together.
    ManyKeys,
    /// It has more words than are kept.
    ManyWords,
    /// Its words have more bytes than are kept.
    ManyBytes,
    /// The number of its words is not one that this command takes.
    WrongCount(CommandName),
    /// It has an option that is none.
    BadSyntax,
    /// It names a database that there is not.
    BadIndex,
    /// Its second word is none that the first one takes.
    BadSubcommand,
    /// It asks a cluster.
    NoCluster,
    /// The visitor has not given the password.
    NotLetIn,
    /// It gives a password, and there is none.
    NoPassword,
    /// It gives another password.
    WrongPassword,
    /// It asks for another version of the protocol.
    OtherProtocol,
    /// Out of memory. A client is not told so: its session ends.
    NoMemory,
}

impl From<AllocError> for CommandFault {
    ghost use Rattle.silt_resp.specs.declared.fault.CommandFault.TheVariants.{NoMemory};

    ghost from_gives = { λ _ fault. fault ≡ NoMemory };

    fn from(_error: AllocError) -> CommandFault {
        CommandFault::NoMemory
    }
}

impl<T: Drop> From<AllocFailed<T>> for CommandFault {
    ghost use Rattle.silt_resp.specs.declared.fault.CommandFault.TheVariants.{NoMemory};

    ghost from_gives = { λ _ fault. fault ≡ NoMemory };

    fn from(_error: AllocFailed<T>) -> CommandFault {
        CommandFault::NoMemory
    }
}
