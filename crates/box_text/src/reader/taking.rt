ghost use Rattle.std.specs.Prelude.{◌≡◌, ◌-◌, ◌<◌, length, take, ◌≢◌, slice_index};
ghost use Rattle.std.specs.Iterator.{at_most};
ghost use Rattle.box_text.specs.Reader.{ahead, left, Answers, Takes};
ghost use Rattle.box_text.specs.Text.{headings, past_heading, rows_of};

use super::super::CellCause;
use super::super::reading::{find, is_heading, row_of};
use super::RowReader;
use box_book::NameBox;

impl<'a> RowReader<'a> {
    /// A reader at the first row that is a box: a heading is passed over.
    pub fn new(bytes: &'a [u8]) -> RowReader<'a>
        ensures rows { ahead result ≡ past_heading (rows_of bytes.now) }
        ensures number { result.number ≡ headings (rows_of bytes.now) }
    {
        let mut reader = RowReader {
            rest: bytes,
            number: 0,
        };
        if reader.take_row().is_some_and(is_heading) {
            return reader;
        }
        RowReader {
            rest: bytes,
            number: 0,
        }
    }

    // Takes the next row.
    fn take_row(&mut self) -> Option<&'a [u8]>
        ensures { Takes self.old self.new result }
    {
        let rest = self.rest;
        if rest.is_empty() {
            return None;
        }
        self.number += 1;
        match find(rest, b'\n') {
            Some(end) => {
                self.rest = &rest[end + 1..];
                Some(without_return(&rest[..end]))
            }
            None => {
                self.rest = &[];
                Some(rest)
            }
        }
    }
}

/// What each row reads as, one after another.
impl Iterator for RowReader<'_> {
    type Item = Result<NameBox, CellCause>;

    ghost next_gives = { λ s a t. Answers s t a };

    ghost remaining = { λ s. at_most (left s) };

    fn next(&mut self) -> Option<Result<NameBox, CellCause>> {
        let row = self.take_row()?;
        Some(row_of(row))
    }
}

// A row that a line feed ends, without the carriage return before it.
fn without_return(row: &[u8]) -> &[u8]
    ensures cut { 0 < length row.now → slice_index row.now (length row.now - 1) ≡ 13 → result.now ≡ take (length row.now - 1) row.now }
    ensures whole { (0 < length row.now → slice_index row.now (length row.now - 1) ≢ 13) → result.now ≡ row.now }
{
    match row {
        [front @ .., b'\r'] => front,
        _ => row,
    }
}
