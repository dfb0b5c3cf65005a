// Why a track isn't gone through to its end.
ghost use Rattle.std.specs.Prelude.{◌≡◌};
ghost use Rattle.inputs.specs.Errors.{IsFailed};
ghost use Rattle.inputs.specs.declared.errors.Error.TheVariants.{Failed};

use std::alloc::{AllocError, AllocFailed};
use std::{fmt, io};

// What is wrong with a file of a track. Lines are counted from 1.
#[derive(Debug, Drop)]
pub enum Wrong {
    // It can't be opened, which is said in the system's words.
    Closed(String),
    Empty,
    TooLong,
    NotParams,
    // Parameters that no slot is opened with: the number, and what it says.
    NotOpened(u64, &'static str),
    NoLength(u64),
    NoBytes(u64),
    LongChunk(u64),
    CutChunk(u64),
    GoesOn,
}

impl fmt::Display for Wrong {
    fn fmt<W: fmt::Write>(&self, f: &mut fmt::Formatter<W>) -> fmt::Result {
        match self {
            Wrong::Closed(why) => write!(f, "{why}"),
            Wrong::Empty => write!(f, "nothing can be read from it"),
            Wrong::TooLong => write!(f, "it is longer than such a file may be"),
            Wrong::NotParams => {
                write!(f, "it doesn't have eight decimal numbers and nothing else")
            }
            Wrong::NotOpened(number, meaning) => write!(f, "number {number}, {meaning}"),
            Wrong::NoLength(line) => {
                write!(f, "line {line}: it doesn't begin with a length in bytes")
            }
            Wrong::NoBytes(line) => write!(f, "line {line}: a chunk can't have 0 bytes"),
            Wrong::LongChunk(line) => {
                write!(f, "line {line}: the chunk has more than 262,144 bytes")
            }
            Wrong::CutChunk(line) => {
                write!(f, "line {line}: chunks.bin ends before this chunk does")
            }
            Wrong::GoesOn => write!(f, "it goes on behind the last chunk of chunks.txt"),
        }
    }
}

// What ends the way through a track.
#[derive(Debug, Drop)]
pub enum Error {
    // A file with that name is bad: the track is left out, and others follow.
    Bad(&'static str, Wrong),
    // There is no memory, or standard output takes nothing more: the program ends.
    Failed(io::Error),
}

impl From<io::Error> for Error {
    ghost from_gives = { λ x e. e ≡ Failed x };

    fn from(e: io::Error) -> Error {
        Error::Failed(e)
    }
}

impl From<AllocError> for Error {
    ghost from_gives = { λ _ e. IsFailed e };

    fn from(e: AllocError) -> Error {
        Error::Failed(io::Error::from(e))
    }
}

impl<T: Drop> From<AllocFailed<T>> for Error {
    ghost from_gives = { λ _ e. IsFailed e };

    fn from(e: AllocFailed<T>) -> Error {
        Error::Failed(io::Error::from(AllocError::from(e)))
    }
}
