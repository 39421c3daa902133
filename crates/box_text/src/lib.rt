//! The rows of a box list, from the text that a spreadsheet exports.
//!
//! A row ends with a line feed, or with a carriage return and a line feed; the end of the last row may be missing. After a
//! row's end there is a further row only if a byte stands there, so an empty text has no rows. A carriage return elsewhere
//! is a byte of its row. A row may have any length.
//!
//! The first row is passed over as a heading if it is not empty and holds no digit; so is one of spaces alone. Every other
//! row is one box: name number, left, top, right, bottom, with commas between. A number is digits, with spaces around them
//! or none, any number of leading zeros, and a value up to 65,535. Nothing else is skipped: an empty row is a row whose
//! name has no number.
//!
//! specs/Text.antt has the rows of a text, specs/Rows.antt what a row reads as, and specs/Reader.antt what the reader
//! answers.
#![tactic(auto)]

mod cells;
mod reader;
mod reading;

pub use cells::cell_number;
pub use reader::RowReader;
pub use reading::row_of;

/// What is at fault in a row that is no box.
#[derive(Clone, Copy, PartialEq, Eq, Debug)]
pub enum CellCause {
    /// The first cell has no number.
    Name,
    /// The first cell has this number, and one of the four after it is missing or has none, or a sixth cell is there.
    Edge(u16),
}
