ghost use Rattle.std.specs.Prelude.{◌≡◌};
ghost use Rattle.forecasts.specs.declared.fault.ForecastError.TheVariants.{Fault, Memory};

use std::alloc::AllocError;
use std::fmt;

/// Why a line is refused.
#[derive(Clone, Copy, Debug, PartialEq)]
pub enum Reason {
    /// The first line is not `slot cost`.
    Names,
    /// The line is not two decimal values with one space between.
    Values,
    /// The slot is above 1023.
    Slot,
    /// The slot stands in an earlier row.
    Twice,
    /// The cost is 0 or above 65,280.
    Cost,
    /// The line does not end in LF.
    Unended,
}

/// The first line that is refused, counted from 1, and why.
#[derive(Clone, Copy, Debug, PartialEq)]
pub struct LineFault {
    pub line: usize,
    pub reason: Reason,
}

/// Why there is no forecast.
#[derive(Clone, Copy, Debug, PartialEq)]
pub enum ForecastError {
    /// The table has a fault.
    Fault(LineFault),
    /// There is not enough memory.
    Memory,
}

impl From<LineFault> for ForecastError {
    ghost from_gives = { λ f r. r ≡ Fault f };

    fn from(fault: LineFault) -> ForecastError {
        ForecastError::Fault(fault)
    }
}

impl From<AllocError> for ForecastError {
    ghost from_gives = { λ _ r. r ≡ Memory };

    fn from(_: AllocError) -> ForecastError {
        ForecastError::Memory
    }
}

impl fmt::Display for Reason {
    fn fmt<W: fmt::Write>(&self, f: &mut fmt::Formatter<W>) -> fmt::Result {
        match self {
            Reason::Names => write!(f, "the first line is not 'slot cost'"),
            Reason::Values => write!(f, "not two decimal values with one space between"),
            Reason::Slot => write!(f, "the slot is above 1023"),
            Reason::Twice => write!(f, "the slot stands in an earlier row"),
            Reason::Cost => write!(f, "the cost is 0 or above 65280"),
            Reason::Unended => write!(f, "the line does not end in LF"),
        }
    }
}

impl fmt::Display for LineFault {
    fn fmt<W: fmt::Write>(&self, f: &mut fmt::Formatter<W>) -> fmt::Result {
        write!(f, "line {}: {}", self.line, self.reason)
    }
}

impl fmt::Display for ForecastError {
    fn fmt<W: fmt::Write>(&self, f: &mut fmt::Formatter<W>) -> fmt::Result {
        match self {
            ForecastError::Fault(fault) => write!(f, "{fault}"),
            ForecastError::Memory => write!(f, "not enough memory"),
        }
    }
}
