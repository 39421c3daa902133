ghost use Rattle.std.specs.Prelude.{◌≡◌, ℕ, ◌+◌, ◌-◌, ◌<◌, ◌≤◌, length, Decides, MatchOption, ◌≢◌};
ghost use Rattle.std.specs.Iterator.{at_most};
ghost use Rattle.std.specs.Str.TwoWay.{IsFirst};
ghost use Rattle.book.specs.declared.Mark.TheVariants.{No};
ghost use Rattle.box_book.specs.Causes.{box_at};
ghost use Rattle.box_book.specs.Meaning.{mark_at};
ghost use Rattle.box_book.specs.Runs.{GivesRun, AllNo, OneOpen};

use super::super::NameBox;
use super::{NameRun, NameRuns};
use book::Mark;

impl<'a> Iterator for NameRuns<'a> {
    type Item = NameRun<'a>;

    ghost next_gives = { GivesRun };

    ghost remaining = { λ s. at_most (length s.list.boxes.now - s.start) };

    fn next(&mut self) -> Option<NameRun<'a>> {
        let start = self.start;
        let name = self.list.boxes.get(start)?.name;
        let end = start + front_of_name(&self.list.boxes[start..], name);
        self.start = end;
        Some(NameRun {
            start,
            marks: &self.list.marks[start..end],
        })
    }
}

impl NameRun<'_> {
    /// Whether all boxes of the name are no.
    pub fn is_lost(&self) -> bool
        ensures { Decides result (AllNo self.now.marks.now) }
    {
        are_no(self.marks)
    }

    /// The place of the box that is open, if all others of the name are no.
    pub fn alone(&self) -> Option<usize>
        ensures { MatchOption result ((k : ℕ) → OneOpen self.now.marks.now k → ⊥) (λ place. (k : ℕ) × (place ≡ self.now.start + k) × OneOpen self.now.marks.now k) }
    {
        let kept = first_kept(self.marks)?;
        let alone = self.marks[kept].is_open() && are_no(&self.marks[kept + 1..]);
        alone.then_some(self.start + kept)
    }
}

/// Whether all of the marks are no.
fn are_no(marks: &[Mark]) -> bool
    ensures { Decides result (AllNo marks.now) }
{
    marks.iter().all(|mark| *mark == Mark::No)
}

/// The first of the marks that is not no.
fn first_kept(marks: &[Mark]) -> Option<usize>
    ensures { IsFirst (λ k. mark_at marks.now k ≢ No) 0 (length marks.now) result }
{
    marks.iter().position(|mark| *mark != Mark::No)
}

/// How many boxes at the front have that name.
fn front_of_name(boxes: &[NameBox], name: u16) -> usize
    ensures within { result ≤ length boxes.now }
    ensures same { (k : ℕ) → k < result → (box_at boxes.now k).name ≡ name }
    ensures other { result < length boxes.now → (box_at boxes.now result).name ≢ name }
{
    boxes.iter().take_while(|b| b.name == name).count()
}
