//! Why a line is no command.
ghost use Rattle.std.specs.Prelude.{◌≡◌, Some};
ghost use Rattle.script.specs.Faults.{hex_fault, parse_fault_text};
ghost use Rattle.script.specs.declared.error.ParseError.TheVariants.{OutOfMemory};

use hex::FromHexError;
use std::alloc::AllocError;
use std::error::Error;
use std::fmt;

/// Why a line is no command.
#[derive(Clone, Copy, PartialEq, Eq, Debug)]
pub enum ParseError {
    /// The line can't be read as a command.
    Unreadable,
    /// Memory ran out before the line was read.
    OutOfMemory,
}

impl fmt::Display for ParseError {
    ghost output = { λ fault. Some (parse_fault_text fault) };

    fn fmt<W: fmt::Write>(&self, f: &mut fmt::Formatter<W>) -> fmt::Result {
        f.write_str(match self {
            ParseError::Unreadable => "unreadable",
            ParseError::OutOfMemory => "memory allocation failed",
        })
    }
}

impl Error for ParseError {}

impl From<AllocError> for ParseError {
    ghost from_gives = { λ _ fault. fault ≡ OutOfMemory };

    fn from(_fault: AllocError) -> ParseError {
        ParseError::OutOfMemory
    }
}

impl From<FromHexError> for ParseError {
    ghost from_gives = { λ fault result. result ≡ hex_fault fault };

    fn from(fault: FromHexError) -> ParseError {
        match fault {
            FromHexError::OutOfMemory => ParseError::OutOfMemory,
            _ => ParseError::Unreadable,
        }
    }
}
