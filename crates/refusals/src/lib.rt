// Refusals: what a call may say no with, and how much the calls take. A row of checks comes to `Ok`, or to the first refusal
// that it finds.
// The numbers and places are those of the table in docs/RULES.md; specs/Refusals.antt has them as definitions.
#![tactic(auto)]

ghost use Rattle.std.specs.Prelude.{◌≡◌};
ghost use Rattle.refusals.specs.Refusals.{number, place};

use std::error::Error;
use std::fmt;

#[derive(Clone, Copy, Debug, PartialEq, Eq)]
pub enum Refusal {
    // The sequence is empty, or an erase would empty it.
    Empty,
    // The byte at a place is no base.
    NoBase(usize),
    // Longer than the limit.
    TooLong,
    // A lent buffer is too short.
    TooShort,
    // A `)` with nothing open, at a place.
    Unopened(usize),
    // A byte other than `(` `)` `.`, at a place.
    NoBracket(usize),
    // The text ends with `(` open; the leftmost unmatched one.
    Unclosed(usize),
    // The pair table is unsound at a place.
    Unsound(usize),
    // Two structures of unequal length.
    Unequal,
    // An edit's position is not inside the sequence.
    Outside,
    // The edit record or the table is unbelievable.
    Unbelievable,
}

// The most bases that a fold takes.
pub const FOLD_LIMIT: usize = 256;

// The most positions that a structure or a bracket text has.
pub const STRUCTURE_LIMIT: usize = 4096;

// The most bases that the program folds.
pub const PROGRAM_LIMIT: usize = 80;

impl Refusal {
    // The number that the table has for it.
    pub fn number(self) -> u32
        ensures { result ≡ number self }
    {
        match self {
            Refusal::Empty => 1,
            Refusal::NoBase(_) => 2,
            Refusal::TooLong => 3,
            Refusal::TooShort => 4,
            Refusal::Unopened(_) => 5,
            Refusal::NoBracket(_) => 6,
            Refusal::Unclosed(_) => 7,
            Refusal::Unsound(_) => 8,
            Refusal::Unequal => 9,
            Refusal::Outside => 10,
            Refusal::Unbelievable => 11,
        }
    }

    // The place where it points, if it does.
    pub fn place(self) -> Option<usize>
        ensures { result ≡ place self }
    {
        match self {
            Refusal::NoBase(k)
            | Refusal::Unopened(k)
            | Refusal::NoBracket(k)
            | Refusal::Unclosed(k)
            | Refusal::Unsound(k) => Some(k),
            Refusal::Empty
            | Refusal::TooLong
            | Refusal::TooShort
            | Refusal::Unequal
            | Refusal::Outside
            | Refusal::Unbelievable => None,
        }
    }
}

// `refused 1`, or with a place `refused 2 at 4`.
impl fmt::Display for Refusal {
    fn fmt<W: fmt::Write>(&self, f: &mut fmt::Formatter<W>) -> fmt::Result {
        write!(f, "refused {}", self.number())?;
        match self.place() {
            Some(k) => write!(f, " at {k}"),
            None => Ok(()),
        }
    }
}

impl Error for Refusal {}
