//! Refusals, with their numbers.
ghost use Rattle.std.specs.Prelude.{◌≡◌, Some};
ghost use Rattle.table.specs.declared.refusals.FileFault.TheVariants.{Record};
ghost use Rattle.table.specs.declared.refusals.PlanFault.TheVariants.{File};
ghost use Rattle.table.specs.Printed.{record_fault_text, file_fault_text, plan_fault_text};
ghost use Rattle.table.specs.Refusals.{record_refusal, file_refusal, plan_refusal};

use std::error::Error;
use std::fmt;

/// What is wrong with a record of a link file, with the place of the byte.
#[derive(Clone, Copy, PartialEq, Eq, Debug)]
pub enum RecordFault {
    /// 17: the length byte is not 9.
    Length(usize),
    /// 18: an end is not below the point count, or both are the same.
    Ends(usize),
    /// 19: the mark is above 2.
    Mark(usize),
    /// 20: the price's form is none.
    Price(usize),
}

/// What is wrong with a link file.
#[derive(Clone, Copy, PartialEq, Eq, Debug)]
pub enum FileFault {
    /// 11: too few or too many bytes.
    Size,
    /// 12: another version.
    Version,
    /// 13: the length field is not the count of bytes after it.
    LengthField,
    /// 14: the code of another kind, or of none.
    Kind,
    /// 15: no point, or too many.
    PointCount,
    /// 16: the budget's form is none.
    Budget,
    /// 17: the bytes of the links are no whole records.
    Records,
    /// 17 to 20: what is wrong with a record.
    Record(RecordFault),
}

/// Why a call is refused.
#[derive(Clone, Copy, PartialEq, Eq, Debug)]
pub enum PlanFault {
    /// 11 to 20: what is wrong with the file.
    File(FileFault),
    /// 32: no point, or too many.
    PointCount,
    /// 33: an output buffer is too short.
    ShortBuffer,
    /// 34: the plan has links or an open trial.
    InUse,
    /// 41: the pool is full.
    PoolFull,
    /// 42: an end is not below the point count, or both are the same.
    Ends,
    /// 43: there is no such link.
    NoSuchLink,
    /// 44: the price is not admitted.
    Price,
    /// 45: a trial is open and the trail is full.
    TrailFull,
    /// 46: the budget is not admitted.
    Budget,
    /// 51: 16 trials are open.
    TooDeep,
    /// 52: the trial is not the innermost of this plan.
    NotInnermost,
    /// 61: kept links close a ring.
    Ring,
    /// 62: links that are not barred do not join all points.
    Cut,
    /// 63: every lawful tree is above the budget.
    Over,
}

impl RecordFault {
    // The rules number every refusal; its number and its place are two readings of one fault, so each is a method.
    /// The refusal's number.
    pub fn number(self) -> u8
        ensures { result ≡ (record_refusal self).0 }
    {
        match self {
            RecordFault::Length(_) => 17,
            RecordFault::Ends(_) => 18,
            RecordFault::Mark(_) => 19,
            RecordFault::Price(_) => 20,
        }
    }

    /// The place of the byte.
    pub fn place(self) -> usize
        ensures { result ≡ (record_refusal self).1 }
    {
        match self {
            RecordFault::Length(at)
            | RecordFault::Ends(at)
            | RecordFault::Mark(at)
            | RecordFault::Price(at) => at,
        }
    }
}

impl FileFault {
    /// The refusal's number.
    pub fn number(self) -> u8
        ensures { result ≡ (file_refusal self).0 }
    {
        match self {
            FileFault::Size => 11,
            FileFault::Version => 12,
            FileFault::LengthField => 13,
            FileFault::Kind => 14,
            FileFault::PointCount => 15,
            FileFault::Budget => 16,
            FileFault::Records => 17,
            FileFault::Record(fault) => fault.number(),
        }
    }

    /// The place of the byte.
    pub fn place(self) -> usize
        ensures { result ≡ (file_refusal self).1 }
    {
        match self {
            FileFault::Size => 0,
            FileFault::Version => 0,
            FileFault::LengthField => 1,
            FileFault::Kind => 5,
            FileFault::PointCount => 6,
            FileFault::Budget => 8,
            FileFault::Records => 1,
            FileFault::Record(fault) => fault.place(),
        }
    }
}

impl PlanFault {
    /// The refusal's number.
    pub fn number(self) -> u8
        ensures { result ≡ (plan_refusal self).0 }
    {
        match self {
            PlanFault::File(fault) => fault.number(),
            PlanFault::PointCount => 32,
            PlanFault::ShortBuffer => 33,
            PlanFault::InUse => 34,
            PlanFault::PoolFull => 41,
            PlanFault::Ends => 42,
            PlanFault::NoSuchLink => 43,
            PlanFault::Price => 44,
            PlanFault::TrailFull => 45,
            PlanFault::Budget => 46,
            PlanFault::TooDeep => 51,
            PlanFault::NotInnermost => 52,
            PlanFault::Ring => 61,
            PlanFault::Cut => 62,
            PlanFault::Over => 63,
        }
    }

    /// The place of the byte, where a file gave cause.
    pub fn place(self) -> Option<usize>
        ensures { result ≡ (plan_refusal self).1 }
    {
        match self {
            PlanFault::File(fault) => Some(fault.place()),
            _ => None,
        }
    }
}

impl From<RecordFault> for FileFault {
    ghost from_gives = { λ f r. r ≡ Record f };

    fn from(cause: RecordFault) -> FileFault {
        FileFault::Record(cause)
    }
}

impl From<FileFault> for PlanFault {
    ghost from_gives = { λ f r. r ≡ File f };

    fn from(cause: FileFault) -> PlanFault {
        PlanFault::File(cause)
    }
}

/// Prints the number and the place, `refused 17 at 22`.
impl fmt::Display for RecordFault {
    ghost output = { λ fault. Some (record_fault_text fault) };

    fn fmt<W: fmt::Write>(&self, f: &mut fmt::Formatter<W>) -> fmt::Result {
        FileFault::Record(*self).fmt(f)
    }
}

/// Prints the number and the place, `refused 17 at 22`.
impl fmt::Display for FileFault {
    ghost output = { λ fault. Some (file_fault_text fault) };

    fn fmt<W: fmt::Write>(&self, f: &mut fmt::Formatter<W>) -> fmt::Result {
        write!(f, "refused {} at {}", self.number(), self.place())
    }
}

/// Prints the number, and the place where a file gave cause: `refused 33`, `refused 17 at 22`.
impl fmt::Display for PlanFault {
    ghost output = { λ fault. Some (plan_fault_text fault) };

    fn fmt<W: fmt::Write>(&self, f: &mut fmt::Formatter<W>) -> fmt::Result {
        match self {
            PlanFault::File(fault) => fault.fmt(f),
            _ => write!(f, "refused {}", self.number()),
        }
    }
}

impl Error for RecordFault {}

impl Error for FileFault {}

impl Error for PlanFault {}
