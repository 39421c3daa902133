//! A box list from its text: each row but a heading is one box.
//!
//! A text is read into a list that the caller lends, or refused with the first of its faults. The list has room for as many
//! boxes as a text may have, so that it is never too short.
#![tactic(auto)]

ghost use Rattle.std.specs.Prelude.{◌≡◌, ℕ, ◌<◌, ◌≤◌, true, List, ◌++◌, length, IfOk, MatchOption, nat_lt};
ghost use Rattle.box_list.specs.Spelling.{box_rows};
ghost use Rattle.box_list.specs.Lists.{row_number, Refused, Read, surplus, told_list, Judged, Told};

use box_book::{BOX_LIMIT, BoxCause, BoxFault, NameBox, name_fits};
use box_text::{CellCause, RowReader};
use refusal::Refusal;

/// Why a text is refused: the fault of its boxes, and the row of the text, counted from 1, on which that box stands.
// Not one type with the fault of a rule file, whose line is printed under another word.
#[derive(Clone, Copy, PartialEq, Eq, Debug)]
pub struct BoxListFault {
    pub fault: BoxFault,
    pub row: usize,
}

impl From<BoxListFault> for Refusal {
    ghost from_gives = { λ f r. r ≡ told_list f };

    fn from(fault: BoxListFault) -> Refusal {
        Refusal::from(fault.fault)
    }
}

/// The box that a row is, where the box before it has that name. The first box follows name 0.
fn judge(row: Result<NameBox, CellCause>, before: u16) -> Result<NameBox, BoxCause>
    ensures { Judged row before result }
{
    let b = row.map_err(told)?;
    match b.fault(before) {
        None => Ok(b),
        Some(cause) => Err(cause),
    }
}

/// The cause of a row that is no box.
fn told(cause: CellCause) -> BoxCause
    ensures { Told cause result }
{
    match cause {
        CellCause::Edge(name) if name_fits(name) => BoxCause::Edge,
        CellCause::Edge(_) | CellCause::Name => BoxCause::Name,
    }
}

/// The row of the first box too many, if there are too many.
fn surplus_row(text: &[u8]) -> Option<usize>
    ensures { MatchOption result (length (box_rows text.now) ≤ 4096) (λ row. (4096 < length (box_rows text.now)) × (row ≡ row_number text.now 4096)) }
{
    let mut reader = RowReader::new(text);
    let _ = reader.nth(BOX_LIMIT)?;
    Some(reader.row_number())
}

/// Whether a text has more boxes than a list may have. It is then refused with the same fault whatever follows it.
pub fn has_too_many(text: &[u8]) -> bool
    ensures count { result ≡ nat_lt 4096 (length (box_rows text.now)) }
    ensures lasts { result ≡ true → (more : List ℕ) → Refused (text.now ++ more) (surplus text.now) }
{
    surplus_row(text).is_some()
}

/// Reads the boxes of a text into the list, and answers how many there are.
pub fn read_boxes(text: &[u8], boxes: &mut [NameBox; BOX_LIMIT]) -> Result<usize, BoxListFault>
    ensures read { Read text.now boxes.old boxes.new result }
    ensures within { IfOk result (λ n. n ≤ 4096) }
{
    if let Some(row) = surplus_row(text) {
        let fault = BoxFault {
            cause: BoxCause::TooMany,
            place: BOX_LIMIT,
        };
        return Err(BoxListFault { fault, row });
    }
    // A refusal leaves the list as it was, so a copy is filled; an ArrayVec would lose what stands after the boxes.
    let mut list = *boxes;
    let mut count = 0;
    let mut before = 0;
    let mut reader = RowReader::new(text);
    while let Some(row) = reader.next() {
        // A match: with `?` over a closure that reads the place and the row the proof did not close.
        match judge(row, before) {
            Ok(b) => {
                before = b.name;
                list[count] = b;
                count += 1;
            }
            Err(cause) => {
                let fault = BoxFault {
                    cause,
                    place: count,
                };
                return Err(BoxListFault {
                    fault,
                    row: reader.row_number(),
                });
            }
        }
    }
    *boxes = list;
    Ok(count)
}
