//! Books: what a sheet allows, and how it reads marks.
//!
//! A sheet has n choices, numbered from 1. A *mark* belongs to one choice and is open, yes or no; n marks with none open
//! are an *arrangement*. A *book* says which arrangements it allows, and gives every list of n marks a *reading*.
#![tactic(auto)]

ghost use Rattle.std.specs.Prelude.{◌≡◌, ℕ, List};
ghost use Rattle.book.specs.declared.Mark.{Mark};
ghost use Rattle.book.specs.declared.Reading.{Reading};
ghost use Rattle.book.specs.Books.{mark_of, other_answer, open_mark, loud, Laws, ReadsAs};

use std::ops::Not;

mod size;

pub use size::{MAX_CHOICES, SheetSize};

/// The mark of one choice.
// Not an `Option<Answer>`: the three are told apart side by side wherever marks are read.
#[derive(Clone, Copy, PartialEq, Eq, Debug)]
pub enum Mark {
    Open,
    Yes,
    No,
}

/// What a choice that is not open is marked with.
#[derive(Clone, Copy, PartialEq, Eq, Debug)]
pub enum Answer {
    Yes,
    No,
}

/// What a book says of some marks.
// `loud` gives it as an Option where a first reading is looked for; elsewhere the three stand side by side.
#[derive(Clone, Copy, PartialEq, Eq, Debug)]
pub enum Reading {
    /// No allowed arrangement extends the marks.
    Broken,
    /// Nothing follows.
    Quiet,
    /// Each allowed arrangement that extends the marks has this answer at this choice, which is open.
    Forced(u16, Answer),
}

/// The list asked about is not n marks long.
#[derive(Clone, Copy, PartialEq, Eq, Debug)]
pub struct Unfit;

impl Mark {
    /// Whether the mark is open.
    pub fn is_open(self) -> bool
        ensures { result ≡ open_mark self }
    {
        self == Mark::Open
    }
}

impl Not for Answer {
    type Output = Answer;

    ghost not_gives = { λ a r. r ≡ other_answer a };

    /// The answer that is not this one.
    fn not(self) -> Answer {
        match self {
            Answer::Yes => Answer::No,
            Answer::No => Answer::Yes,
        }
    }
}

impl From<Answer> for Mark {
    ghost from_gives = { λ a m. m ≡ mark_of a };

    fn from(answer: Answer) -> Mark {
        match answer {
            Answer::Yes => Mark::Yes,
            Answer::No => Mark::No,
        }
    }
}

impl Reading {
    /// The reading, where something follows from the marks; none where it is quiet.
    pub fn loud(self) -> Option<Reading>
        ensures { result ≡ loud self }
    {
        match self {
            Reading::Quiet => None,
            Reading::Broken | Reading::Forced(..) => Some(self),
        }
    }
}

/// A book of some kind. Its meaning is in the ghost members, and `lawful` is what each kind of book owes;
/// whoever is generic over books may rely on these laws and on nothing else.
pub trait Book {
    /// The kind number, one for each kind of book. An impl with a lifetime, as most kinds of book have, can't yet give a constant
    /// that clauses name, so clauses have a member of their own.
    const KIND: u16;

    /// The same number, for clauses.
    ghost kind: { ℕ };

    /// n, the number of choices.
    ghost size: { Self → ℕ };

    /// The allowed arrangements.
    ghost allows: { Self → List Mark → Type 0 };

    /// The reading of every list of n marks.
    ghost reads: { Self → List Mark → Reading };

    fn kind_number(&self) -> u16
        ensures { result ≡ kind };

    fn choices(&self) -> u16
        ensures { result ≡ size self.now };

    fn read(&self, marks: &[Mark]) -> Result<Reading, Unfit>
        ensures { ReadsAs (size self.now) (reads self.now) marks.now result };

    ghost lawful: { (b : Self) → Laws (size b) (allows b) (reads b) };
}
