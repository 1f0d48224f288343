//! The error of every reader of a file, and the line that tells it.

ghost use Rattle.std.specs.Prelude.{◌≡◌, IfOk};
ghost use Rattle.beet_forms.specs.declared.faults.FaultPlace.TheVariants.{Row, At};
ghost use Rattle.beet_forms.specs.declared.faults.ReadFault.TheVariants.{Bad, OutOfMemory};
ghost use Rattle.beet_forms.specs.FaultLines.{fault_line_of};

use std::alloc::{AllocError, AllocFailed, Global};
use thiserror::Error;

/// The most bytes of a file of any format.
pub const LONGEST_FILE: u64 = 67_108_864;

/// The reason against row 1 of a text file if it is missing or is not the header.
pub const BAD_HEADER: u32 = 1;

/// The reason of a text file against a row that is missing, has another number of fields, or has a field that is not of
/// its form.
pub const BAD_ROW: u32 = 2;

/// Where a file breaks its format.
#[derive(Clone, Copy, Debug, PartialEq, Eq)]
pub enum FaultPlace {
    /// The record or line of a text file, counted from 1; 0 stands for the file as a whole.
    Row(u32),
    /// The offset of a field of a binary file in bytes, counted from 0.
    At(u64),
}

/// Why a file is not read.
#[derive(Clone, Copy, Debug, PartialEq, Eq, Error)]
pub enum ReadFault {
    /// The first offending place, with its reason by the format's own numbers.
    #[error("the file is not of its format: reason {reason}")]
    Bad { place: FaultPlace, reason: u32 },
    /// Memory ran out.
    #[error("out of memory")]
    OutOfMemory,
}

impl ReadFault {
    /// A fault at a row of a text file.
    pub fn at_row(number: u32, reason: u32) -> ReadFault
        ensures { result ≡ Bad (Row number) reason }
    {
        ReadFault::Bad {
            place: FaultPlace::Row(number),
            reason,
        }
    }

    /// A fault at an offset of a binary file.
    pub fn at_offset(offset: u64, reason: u32) -> ReadFault
        ensures { result ≡ Bad (At offset) reason }
    {
        ReadFault::Bad {
            place: FaultPlace::At(offset),
            reason,
        }
    }
}

impl From<AllocError> for ReadFault {
    ghost from_gives = { λ _ fault. fault ≡ OutOfMemory };

    fn from(_: AllocError) -> ReadFault {
        ReadFault::OutOfMemory
    }
}

impl<T: Drop> From<AllocFailed<T>> for ReadFault {
    ghost from_gives = { λ _ fault. fault ≡ OutOfMemory };

    fn from(_: AllocFailed<T>) -> ReadFault {
        ReadFault::OutOfMemory
    }
}

/// The line that tells of a bad file, with its newline: `bad file: NAME row N reason K` or
/// `bad file: NAME at A reason K`. Want of memory is the only error.
pub fn fault_line(
    alloc: Global,
    file: &str,
    place: FaultPlace,
    reason: u32,
) -> Result<Vec<u8>, AllocError>
    ensures { IfOk result (λ line. line.items ≡ fault_line_of file.now place reason) }
{
    let line = match place {
        FaultPlace::Row(number) => format!(in alloc;
            "bad file: {file} row {number} reason {reason}\n"
        )?,
        FaultPlace::At(offset) => format!(in alloc;
            "bad file: {file} at {offset} reason {reason}\n"
        )?,
    };
    Ok(line.into_bytes())
}
