//! Marks of links.
ghost use Rattle.std.specs.Prelude.{◌≡◌, Some};
ghost use Rattle.table.specs.Marks.{mark_number, mark_of, role_of, ReadAsMark};
ghost use Rattle.table.specs.Printed.{mark_word, unknown_mark_text};

use std::error::Error;
use std::fmt;

/// What is said of a link. A free link may stand in a tree, a kept link has to, and a barred link may not.
#[derive(Clone, Copy, PartialEq, Eq, Debug)]
pub enum Mark {
    Free,
    Kept,
    Barred,
}

/// How trees and findings read a mark.
// Marks may become more than these three; trees and findings read only these.
#[derive(Clone, Copy, PartialEq, Eq, Debug, Default)]
pub enum Role {
    Free,
    Kept,
    #[default]
    Barred,
}

/// A number that no mark has.
#[derive(Clone, Copy, PartialEq, Eq, Debug)]
pub struct UnknownMark(pub u8);

/// The mark's number: 0 free, 1 kept, 2 barred.
impl From<Mark> for u8 {
    ghost from_gives = { λ m n. (n ≡ mark_number m) × (mark_of n ≡ Some m) };

    fn from(mark: Mark) -> u8 {
        match mark {
            Mark::Free => 0,
            Mark::Kept => 1,
            Mark::Barred => 2,
        }
    }
}

/// The mark that has this number, if any.
impl TryFrom<u8> for Mark {
    type Error = UnknownMark;

    ghost try_from_gives = { ReadAsMark };

    fn try_from(number: u8) -> Result<Mark, UnknownMark> {
        match number {
            0 => Ok(Mark::Free),
            1 => Ok(Mark::Kept),
            2 => Ok(Mark::Barred),
            _ => Err(UnknownMark(number)),
        }
    }
}

/// The reading of the mark that trees and findings rest on.
impl From<Mark> for Role {
    ghost from_gives = { λ m r. r ≡ role_of m };

    fn from(mark: Mark) -> Role {
        match mark {
            Mark::Free => Role::Free,
            Mark::Kept => Role::Kept,
            Mark::Barred => Role::Barred,
        }
    }
}

impl Mark {
    /// The word that is printed for the mark.
    pub fn word(self) -> &'static str
        ensures { result.now ≡ mark_word self }
    {
        match self {
            Mark::Free => "free",
            Mark::Kept => "kept",
            Mark::Barred => "barred",
        }
    }
}

impl fmt::Display for Mark {
    ghost output = { λ mark. Some (mark_word mark) };

    fn fmt<W: fmt::Write>(&self, f: &mut fmt::Formatter<W>) -> fmt::Result {
        f.pad(self.word())
    }
}

/// Prints the number, `no mark has the number 3`.
impl fmt::Display for UnknownMark {
    ghost output = { λ unknown. Some (unknown_mark_text unknown) };

    fn fmt<W: fmt::Write>(&self, f: &mut fmt::Formatter<W>) -> fmt::Result {
        write!(f, "no mark has the number {}", self.0)
    }
}

impl Error for UnknownMark {}
