ghost use Rattle.std.specs.Prelude.{◌≡◌, length, drop, slice_index};
ghost use Rattle.std.specs.Iterator.{YieldsFirstBy, item_count};
ghost use Rattle.std.specs.Str.TwoWay.{IsFirst};
ghost use Rattle.std.specs.List.{list_any};
ghost use Rattle.box_text.specs.Cells.{digit};
ghost use Rattle.box_text.specs.Rows.{cells_ahead, number_at, row_of};
ghost use Rattle.box_text.specs.Text.{heading};

use super::CellCause;
use super::cells::cell_number;
use box_book::NameBox;

// The cells of a row that are still ahead.
#[derive(Drop)]
pub struct Cells<'a> {
    // What stands after the last comma that was passed, or `None` after the last cell.
    rest: Option<&'a [u8]>,
}

impl<'a> Iterator for Cells<'a> {
    type Item = &'a [u8];

    ghost next_gives = { YieldsFirstBy (λ cell. cell.now) cells_ahead };

    ghost remaining = { item_count cells_ahead };

    fn next(&mut self) -> Option<&'a [u8]> {
        let rest = self.rest?;
        match find(rest, b',') {
            Some(comma) => {
                self.rest = Some(&rest[comma + 1..]);
                Some(&rest[..comma])
            }
            None => {
                self.rest = None;
                Some(rest)
            }
        }
    }
}

impl Cells<'_> {
    // Takes the next cell: its number, if the cell is there and has one.
    fn next_number(&mut self) -> Option<u16>
        ensures number { result ≡ number_at 0 (cells_ahead self.old) }
        ensures on { cells_ahead self.new ≡ drop 1 (cells_ahead self.old) }
    {
        cell_number(self.next()?)
    }
}

/// What the bytes of a row read as.
pub fn row_of(row: &[u8]) -> Result<NameBox, CellCause>
    ensures { result ≡ row_of row.now }
{
    let mut cells = Cells { rest: Some(row) };
    let name = cells.next_number().ok_or(CellCause::Name)?;
    let edge = CellCause::Edge(name);
    let left = cells.next_number().ok_or(edge)?;
    let top = cells.next_number().ok_or(edge)?;
    let right = cells.next_number().ok_or(edge)?;
    let bottom = cells.next_number().ok_or(edge)?;
    // Whether a sixth cell is there, which is not gone over.
    if cells.rest.is_some() {
        return Err(edge);
    }
    Ok(NameBox {
        name,
        left,
        top,
        right,
        bottom,
    })
}

// The place of the first such byte.
pub fn find(bytes: &[u8], byte: u8) -> Option<usize>
    ensures { IsFirst (λ k. slice_index bytes.now k ≡ byte) 0 (length bytes.now) result }
{
    bytes.iter().position(|b| *b == byte)
}

// Whether a first row is a heading.
pub fn is_heading(row: &[u8]) -> bool
    ensures { result ≡ heading row.now }
{
    !row.is_empty() && !has_digit(row)
}

fn has_digit(bytes: &[u8]) -> bool
    ensures { result ≡ list_any digit bytes.now }
{
    bytes.iter().any(|b| b.is_ascii_digit())
}
