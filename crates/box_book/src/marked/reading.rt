ghost use Rattle.std.specs.Prelude.{◌≡◌, min, length};
ghost use Rattle.std.specs.Str.TwoWay.{IsFirst};
ghost use Rattle.box_book.specs.Places.{first_below};
ghost use Rattle.box_book.specs.Readings.{clashed, crowded, lost, blocked_at, alone_at, boxes_reading};
ghost use Rattle.box_book.specs.Runs.{Clashes};

use super::super::NameBox;
use super::{Marked, NameRuns};
use book::{Answer, Mark, Reading};

impl<'a> Marked<'a> {
    /// The first box before place `end` that has that mark and clashes with `b`.
    fn first_clashing(&self, mark: Mark, b: NameBox, end: usize) -> Option<usize>
        ensures { IsFirst (Clashes self.now.boxes.now self.now.marks.now mark b) 0 (min end (length self.now.boxes.now)) result }
    {
        // By places: as a chain of zip and take this loop, which is the hot one, measured slower.
        for k in 0..end.min(self.boxes.len()) {
            if self.marks[k] == mark && self.boxes[k].clashes(b) {
                return Some(k);
            }
        }
        None
    }

    /// Whether a yes box before place `end` clashes with `b`.
    fn clashed(&self, b: NameBox, end: usize) -> bool
        ensures { result ≡ clashed self.now.boxes.now self.now.marks.now end b }
    {
        self.first_clashing(Mark::Yes, b, end).is_some()
    }

    /// Whether two yes boxes clash.
    fn is_crowded(&self) -> bool
        ensures { result ≡ crowded self.now.boxes.now self.now.marks.now }
    {
        // A loop over the marks alone: as a chain it measured slower, and readings are the hot loop.
        for (k, mark) in self.marks.iter().enumerate() {
            if *mark == Mark::Yes && self.clashed(self.boxes[k], k) {
                return true;
            }
        }
        false
    }

    /// The first open box that clashes with a yes box.
    fn first_blocked(&self) -> Option<usize>
        ensures { result ≡ first_below (blocked_at self.now.boxes.now self.now.marks.now) (length self.now.boxes.now) }
    {
        // A loop too, since a chain measured slower.
        let mut first = None;
        for (k, mark) in self.marks.iter().enumerate() {
            if *mark == Mark::Yes {
                // Only the boxes before the first that is known are gone over.
                let end = first.unwrap_or(self.boxes.len());
                first = self
                    .first_clashing(Mark::Open, self.boxes[k], end)
                    .or(first);
            }
        }
        first
    }

    /// Whether all boxes of some name are no.
    fn has_lost_name(&self) -> bool
        ensures { result ≡ lost self.now.boxes.now self.now.marks.now }
    {
        self.runs().any(|run| run.is_lost())
    }

    /// The first open box with all other boxes of its name no.
    fn first_alone(&self) -> Option<usize>
        ensures { result ≡ first_below (alone_at self.now.boxes.now self.now.marks.now) (length self.now.boxes.now) }
    {
        self.runs().find_map(|run| run.alone())
    }

    /// The runs of boxes of one name, in order.
    fn runs(&self) -> NameRuns<'a>
        ensures list { result.list ≡ self.now }
        ensures start { result.start ≡ 0 }
    {
        NameRuns {
            list: *self,
            start: 0,
        }
    }

    /// The reading of the marks.
    pub fn reading(&self) -> Reading
        ensures { result ≡ boxes_reading self.now.boxes.now self.now.marks.now }
    {
        if self.is_crowded() || self.has_lost_name() {
            Reading::Broken
        } else if let Some(place) = self.first_blocked() {
            Reading::Forced(place as u16 + 1, Answer::No)
        } else if let Some(place) = self.first_alone() {
            Reading::Forced(place as u16 + 1, Answer::Yes)
        } else {
            Reading::Quiet
        }
    }
}
