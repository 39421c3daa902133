//! The pins of a job.
ghost use Rattle.std.specs.Prelude.{◌≡◌, ◌-◌, ◌≤◌, length, replicate, slice_set};
ghost use Rattle.book.specs.declared.Mark.TheVariants.{Open as OpenMark};
ghost use Rattle.book.specs.Books.{mark_of};
ghost use Rattle.standing.specs.Readings.{pins_reading};
ghost use Rattle.standing.specs.Steps.{pin_says};
ghost use Rattle.standing.specs.Table.{Does, pin_fault, free_fault};

use super::{MAX_CHOICES, fault, place_on};
use book::{Answer, Mark, Reading, SheetSize};
use refusal::{JobCause, JobFault};
use std::marker::Model;

/// The pins of a job: for each choice that a sheet can have, the answer that is ordered, or open where none is.
#[derive(Drop)]
pub struct Pins {
    marks: [Mark; MAX_CHOICES],
}

impl Model for Pins {
    ghost use Rattle.std.specs.Prelude.{List};
    ghost use Rattle.book.specs.declared.Mark.{Mark};

    ghost Value = { List Mark };

    ghost view = { λ p. p.marks };
}

impl Pins {
    /// No pins.
    pub fn new() -> Pins
        ensures { result ≡ replicate 4096 OpenMark }
    {
        Pins {
            marks: [Mark::Open; MAX_CHOICES],
        }
    }

    /// The pins, one mark for each choice that a sheet can have.
    pub fn marks(&self) -> &[Mark]
        ensures pins { result.now ≡ self.now }
        ensures len { length result.now ≡ 4096 }
    {
        &self.marks
    }

    /// Pins the choice of a sheet of `n` choices to the answer, whatever pin was there.
    pub fn pin(&mut self, n: SheetSize, choice: u16, answer: Answer) -> Result<(), JobFault>
        ensures { Does (pin_fault n.value choice) self.old (slice_set self.old (choice - 1) (mark_of answer)) result self.new }
    {
        let place = place_on(n, choice).map_err(fault)?;
        self.marks[place] = answer.into();
        Ok(())
    }

    /// Takes the pin from the choice.
    pub fn free(&mut self, n: SheetSize, choice: u16) -> Result<(), JobFault>
        ensures { Does (free_fault n.value self.old choice) self.old (slice_set self.old (choice - 1) OpenMark) result self.new }
    {
        let place = place_on(n, choice).map_err(fault)?;
        if self.marks[place].is_open() {
            return Err(fault(JobCause::NotPinned));
        }
        self.marks[place] = Mark::Open;
        Ok(())
    }

    /// What the pins say of some marks: broken if a pinned choice has the other answer, else forced at the lowest pinned
    /// choice that is open.
    pub fn reading(&self, marks: &[Mark]) -> Reading
        ensures { result ≡ pins_reading self.now marks.now }
    {
        // One pass: a chain would go over the marks once for broken pins and once for open ones.
        let mut forced = Reading::Quiet;
        for (place, (pin, mark)) in self.marks.iter().zip(marks).enumerate() {
            match pin_says(place as u16 + 1, *pin, *mark) {
                Reading::Broken => return Reading::Broken,
                said => forced = forced.loud().unwrap_or(said),
            }
        }
        forced
    }
}

/// What one pin says of the mark of its choice.
fn pin_says(choice: u16, pin: Mark, mark: Mark) -> Reading
    ensures { result ≡ pin_says choice pin mark }
{
    match (pin, mark) {
        (Mark::Yes, Mark::No) | (Mark::No, Mark::Yes) => Reading::Broken,
        (Mark::Yes, Mark::Open) => Reading::Forced(choice, Answer::Yes),
        (Mark::No, Mark::Open) => Reading::Forced(choice, Answer::No),
        _ => Reading::Quiet,
    }
}
