//! The reading of marks, where each box of a sound list has one.
ghost use Rattle.std.specs.Prelude.{◌≡◌, ◌+◌, ◌^◌, ◌<◌, ◌≤◌, length};
ghost use Rattle.box_book.specs.Causes.{Sound};

use super::NameBox;
use book::Mark;

mod reading;
mod runs;

/// The boxes of a sound list, each with its mark.
#[derive(Clone, Copy)]
pub struct Marked<'a> {
    pub boxes: &'a [NameBox],
    pub marks: &'a [Mark],
    ghost fit: { length marks.now ≡ length boxes.now },
    ghost sound: { Sound boxes.now },
}

/// The runs of boxes of one name that are still ahead.
#[derive(Drop)]
struct NameRuns<'a> {
    list: Marked<'a>,
    start: usize,
    ghost within: { start ≤ length list.boxes.now },
}

/// The marks of a run, and the place of its first box.
#[derive(Clone, Copy)]
struct NameRun<'a> {
    start: usize,
    marks: &'a [Mark],
    ghost fits: { start + length marks.now < 2 ^ 63 },
}
