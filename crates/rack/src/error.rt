// The error of calls on racks that take memory.
ghost use Rattle.std.specs.Prelude.{◌≡◌, Some, alloc_error};
ghost use Rattle.rack.specs.declared.error.RackError.TheVariants.{Refused, NoMemory};
ghost use Rattle.rack.specs.Printed.{printed_error};

use fault::fault::{Fault, RackFault};
use std::alloc::{AllocError, AllocFailed};
use std::error::Error;
use std::fmt;

// Why such a call failed: the rack refuses it, or there is no memory.
#[derive(Clone, Copy, PartialEq, Eq, Debug, Drop)]
pub enum RackError {
    Refused(RackFault),
    NoMemory(AllocError),
}

// Each conversion is written out, since a derived `From` says nothing of its result.
impl From<RackFault> for RackError {
    ghost from_gives = { λ x r. r ≡ Refused x };

    fn from(fault: RackFault) -> RackError {
        Self::Refused(fault)
    }
}

impl From<AllocError> for RackError {
    ghost from_gives = { λ x r. r ≡ NoMemory x };

    fn from(error: AllocError) -> RackError {
        Self::NoMemory(error)
    }
}

impl<T: Drop> From<AllocFailed<T>> for RackError {
    ghost from_gives = { λ _ r. r ≡ NoMemory alloc_error };

    fn from(failed: AllocFailed<T>) -> RackError {
        Self::from(AllocError::from(failed))
    }
}

// A refusal as its fault, as `r 21 6`; want of memory in the allocator's words.
impl fmt::Display for RackError {
    ghost output = { λ x. Some (printed_error x) };

    fn fmt<W: fmt::Write>(&self, f: &mut fmt::Formatter<W>) -> fmt::Result {
        match self {
            RackError::Refused(fault) => Fault::from(*fault).fmt(f),
            RackError::NoMemory(_) => f.write_str("memory allocation failed"),
        }
    }
}

impl Error for RackError {}
