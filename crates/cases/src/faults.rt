// Why a file of cases is given up.
use std::alloc::{AllocError, AllocFailed};
use std::{fmt, io};

// Lines count from 1.
#[derive(Drop)]
pub(crate) enum FileFault {
    // a line that is of no kind
    Unknown(usize),
    // a line of a case where no case has begun
    Stray(usize),
    // a want of memory, or of reading or writing
    Io(io::Error),
}

// What the program ends with is printed by this.
impl fmt::Debug for FileFault {
    fn fmt<W: fmt::Write>(&self, f: &mut fmt::Formatter<W>) -> fmt::Result {
        match self {
            FileFault::Unknown(line) => write!(f, "line {line} is of no kind"),
            FileFault::Stray(line) => write!(f, "line {line} belongs to no case"),
            FileFault::Io(error) => write!(f, "{error}"),
        }
    }
}

impl From<io::Error> for FileFault {
    fn from(error: io::Error) -> FileFault {
        FileFault::Io(error)
    }
}

impl From<AllocError> for FileFault {
    fn from(error: AllocError) -> FileFault {
        FileFault::Io(io::Error::from(error))
    }
}

impl<T: Drop> From<AllocFailed<T>> for FileFault {
    fn from(error: AllocFailed<T>) -> FileFault {
        FileFault::from(AllocError::from(error))
    }
}
