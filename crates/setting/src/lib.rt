//! A sheet set from start to finish: from the bytes of a rule file, or the text of a box list, to the lines that are printed.
#![tactic(auto)]

ghost use Rattle.std.specs.Prelude.{◌≤◌, length, IfOk};
ghost use Rattle.setting.specs.Sheets.{SearchPrinted, SheetPrinted};
ghost use Rattle.setting.specs.Boxes.{BoxesPrinted};

use book::{Book, MAX_CHOICES, Mark};
use box_book::{BOX_LIMIT, BoxBook, NO_BOX};
use box_list::read_boxes;
use printing::{Position, print_refusal, print_refusal_at, print_verdict};
use refusal::{JobFault, Refusal};
use rule_store::Storage;
use solver::search;

/// The trials that the programs allow a search.
pub const ALLOWANCE: u64 = 1_000_000;

/// More bytes than the longest verdict takes: 4,096 choices of at most five bytes each, and the first line.
pub const MOST_OUTPUT: usize = 32768;

/// Searches a book and prints the verdict.
// The allowance and the list to print into are no struct: the one is a number of the caller's, the other is lent.
pub fn print_search<B: Book>(book: &B, allowance: u64, out: &mut [u8]) -> Result<usize, JobFault>
    ensures searched { SearchPrinted (B.Book.size book.now) (B.Book.allows book.now) (B.Book.reads book.now) allowance out.old out.new result }
    ensures within { IfOk result (λ n. n ≤ length out.old) }
{
    let n = book.choices() as usize;
    let mut marks = [Mark::Open; MAX_CHOICES];
    let mut work = [0; MAX_CHOICES];
    let marks = &mut marks[0..n];
    let Ok(verdict) = search(book, allowance, marks, &mut work[0..n]) else {
        unreachable()
    };
    print_verdict(out, verdict, marks)
}

/// Reads a rule file, searches its book and prints the verdict, or prints the refusal of the file.
pub fn set_sheet(file: &[u8], allowance: u64, out: &mut [u8]) -> Result<usize, JobFault>
    ensures printed { SheetPrinted file.now allowance out.old out.new result }
    ensures within { IfOk result (λ n. n ≤ length out.old) }
{
    let mut storage = Storage::new();
    match storage.read(file) {
        Ok(book) => print_search(&book, allowance, out),
        Err(fault) => print_refusal(out, Refusal::from(fault), fault.line),
    }
}

/// Reads a box list from its text, searches its book and prints the verdict, or prints the refusal of the text.
pub fn set_boxes(text: &[u8], allowance: u64, out: &mut [u8]) -> Result<usize, JobFault>
    ensures printed { BoxesPrinted text.now allowance out.old out.new result }
    ensures within { IfOk result (λ n. n ≤ length out.old) }
{
    let mut boxes = [NO_BOX; BOX_LIMIT];
    match read_boxes(text, &mut boxes) {
        Ok(n) => print_search(&BoxBook::of(&boxes[0..n]), allowance, out),
        Err(fault) => print_refusal_at(out, Refusal::from(fault), Position::Row(fault.row)),
    }
}
