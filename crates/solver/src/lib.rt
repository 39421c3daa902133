//! The search for the first allowed arrangement of a sheet, over any book.
//!
//! All marks start open, and the book's reading says what comes next. A forced choice is marked. Where the reading is quiet
//! and some mark is open, the search *tries* yes at the lowest open choice. Where the marks are broken, the latest trial that is
//! not yet turned is *turned*: its choice becomes no, and every mark made after it open again.
#![tactic(auto)]

ghost use Rattle.std.specs.Prelude.{◌≡◌, ◌+◌, ◌≤◌, length, replicate, IfOk, MatchOption};
ghost use Rattle.book.specs.declared.Mark.TheVariants.{Open as OpenMark};
ghost use Rattle.solver.specs.Outcome.{Alike, Means, Ran, Searched};
ghost use Rattle.solver.specs.Tree.{first_open, TreeLaws};

use book::{Book, Mark, Reading};
use refusal::{JobCause, JobFault};
use trail::{Step, Trail};

#[cfg(test)]
mod tests;
mod trail;

/// How a search ended.
#[derive(Clone, Copy, PartialEq, Eq, Debug)]
pub enum Ending {
    /// The marks hold the first allowed arrangement.
    Found,
    /// No arrangement is allowed.
    None,
    /// The allowance did not suffice.
    Spent,
}

/// What a search says: how it ended, and how many trials it counted.
#[derive(Clone, Copy, PartialEq, Eq, Debug)]
pub struct Verdict {
    pub ending: Ending,
    pub trials: u64,
}

/// Looks for the first arrangement that the book allows, in at most `allowance` trials. Both lists are to be n long, whatever
/// they hold. Afterwards the marks hold the arrangement that was found, or are all open, and the work list is zeros.
///
/// `does` tells what is said, counted, left in the lists and refused; `truth` what the ending means for the book; `alike` that
/// equal books are searched alike; `tree` that every search has one end, which is true of the book and not too many trials away.
pub fn search<B: Book>(
    book: &B,
    allowance: u64,
    marks: &mut [Mark],
    work: &mut [u16],
) -> Result<Verdict, JobFault>
    ensures does { Searched (B.Book.size book.now) (B.Book.reads book.now) allowance marks.old work.old marks.new work.new result }
    ensures truth { IfOk result (λ v. Means (B.Book.allows book.now) v.ending marks.new) }
    ensures alike { Alike (B.Book.size book.now) (B.Book.reads book.now) }
    ensures tree { TreeLaws (B.Book.size book.now) (B.Book.allows book.now) (B.Book.reads book.now) }
{
    let n = book.choices() as usize;
    if marks.len() != n || work.len() != n {
        return Err(JobFault {
            cause: JobCause::ListLength,
            place: 0,
        });
    }
    marks.fill(Mark::Open);
    let verdict = run(book, allowance, marks, work);
    if verdict.ending != Ending::Found {
        marks.fill(Mark::Open);
    }
    work.fill(0);
    Ok(verdict)
}

/// Searches from open marks. An arrangement that is found stands in the marks; other endings leave them as they happen to be.
fn run<B: Book>(book: &B, allowance: u64, marks: &mut [Mark], work: &mut [u16]) -> Verdict
    requires { (marks.old ≡ replicate (B.Book.size book.now) OpenMark) × (length work.old ≡ B.Book.size book.now) }
    ensures { Ran (B.Book.size book.now) (B.Book.reads book.now) allowance result marks.new }
{
    let mut trail = Trail::new(marks, work);
    let mut trials = 0;
    let ending = loop {
        // A book reads every list that is as long as it has choices.
        let Ok(reading) = book.read(trail.marks()) else {
            unreachable()
        };
        match reading {
            Reading::Forced(choice, answer) => {
                trail.push(Step::forced(choice), Mark::from(answer));
            }
            Reading::Quiet => match lowest_open(trail.marks()) {
                None => break Ending::Found,
                Some(_) if trials == allowance => break Ending::Spent,
                Some(choice) => {
                    trials += 1;
                    trail.push(Step::trial(choice), Mark::Yes);
                }
            },
            Reading::Broken => {
                if !trail.turn() {
                    break Ending::None;
                }
            }
        }
    };
    Verdict { ending, trials }
}

/// The lowest choice whose mark is open.
fn lowest_open(marks: &[Mark]) -> Option<u16>
    requires { length marks.now ≤ 4096 }
    ensures { MatchOption result (length marks.now ≤ first_open marks.now) (λ c. (c ≡ first_open marks.now + 1) × (c ≤ length marks.now)) }
{
    let place = marks.iter().position(|mark| mark.is_open())?;
    Some(place as u16 + 1)
}
