//! What the programs print: fixed words and numbers, written into bytes that the caller lends.
#![tactic(auto)]

ghost use Rattle.std.specs.Prelude.{◌≡◌};
ghost use Rattle.printing.specs.Words.{word, verdict_text, refusal_text, position_text, refusal_text_at};
ghost use Rattle.printing.specs.Output.{choice_line, Printed};

use book::Mark;
use output::{Text, write_whole};
use refusal::{JobCause, JobFault, Refusal};
use solver::{Ending, Verdict};

/// Where in a text the place of a refusal stands, counted from 1.
#[derive(Clone, Copy, PartialEq, Eq, Debug)]
pub enum Position {
    /// The line of a rule file.
    Line(usize),
    /// The row of a box list.
    Row(usize),
}

/// The line of the yes choices.
#[derive(Drop)]
struct YesChoices<'a> {
    marks: &'a [Mark],
}

/// A verdict, with the marks that its search left.
#[derive(Drop)]
struct Search<'a> {
    verdict: Verdict,
    marks: &'a [Mark],
}

/// A refusal, with the line or row of its place.
#[derive(Drop)]
struct Refused {
    refusal: Refusal,
    position: Position,
}

/// The word for an ending.
// By hand: the words are fixed text of the output and not the variants' names, which Debug writes.
fn word_of(ending: Ending) -> &'static str
    ensures { result.now ≡ word ending }
{
    match ending {
        Ending::Found => "found",
        Ending::None => "none",
        Ending::Spent => "spent",
    }
}

impl<'a> Text for YesChoices<'a> {
    ghost bytes = { λ line. choice_line line.marks.now };

    fn put(&self, out: &mut [u8], start: usize) -> Option<usize> {
        let mut at = start;
        let mut gap = "";
        for (i, mark) in self.marks.iter().enumerate() {
            if let Mark::Yes = *mark {
                at = (gap, i as u64 + 1).put(out, at)?;
                gap = " ";
            }
        }
        "\n".put(out, at)
    }
}

impl<'a> Text for Search<'a> {
    ghost bytes = { λ search. verdict_text search.verdict search.marks.now };

    fn put(&self, out: &mut [u8], at: usize) -> Option<usize> {
        let Verdict { ending, trials } = self.verdict;
        let verdict = (word_of(ending), " ", trials, "\n");
        match ending {
            Ending::Found => (verdict, YesChoices { marks: self.marks }).put(out, at),
            Ending::None | Ending::Spent => verdict.put(out, at),
        }
    }
}

impl Text for Position {
    ghost bytes = { position_text };

    fn put(&self, out: &mut [u8], at: usize) -> Option<usize> {
        match *self {
            Position::Line(line) => (" line ", line as u64).put(out, at),
            Position::Row(row) => (" row ", row as u64).put(out, at),
        }
    }
}

impl Text for Refused {
    ghost bytes = { λ refused. refusal_text_at refused.refusal refused.position };

    fn put(&self, out: &mut [u8], at: usize) -> Option<usize> {
        let cause = ("refused ", self.refusal.number as u64);
        let place = (" at ", self.refusal.place as u64);
        (cause, place, self.position, "\n").put(out, at)
    }
}

const TOO_SHORT: JobFault = JobFault {
    cause: JobCause::ListTooShort,
    place: 0,
};

fn print<T: Text>(out: &mut [u8], text: &T) -> Result<usize, JobFault>
    ensures { Printed (T.bytes text.now) out.old out.new result }
{
    let room = out.len();
    write_whole(text, room, out).ok_or(TOO_SHORT)
}

/// Prints a verdict: its word and its trials, and after found a line with the yes choices.
pub fn print_verdict(out: &mut [u8], verdict: Verdict, marks: &[Mark]) -> Result<usize, JobFault>
    ensures { Printed (verdict_text verdict marks.now) out.old out.new result }
{
    print(out, &Search { verdict, marks })
}

/// Prints the refusal of a file: its cause, its place and its line.
pub fn print_refusal(out: &mut [u8], refusal: Refusal, line: usize) -> Result<usize, JobFault>
    ensures { Printed (refusal_text refusal line) out.old out.new result }
{
    print_refusal_at(out, refusal, Position::Line(line))
}

/// Prints the refusal of a sheet: its cause, its place, and the line or row of that.
pub fn print_refusal_at(
    out: &mut [u8],
    refusal: Refusal,
    position: Position,
) -> Result<usize, JobFault>
    ensures { Printed (refusal_text_at refusal position) out.old out.new result }
{
    print(out, &Refused { refusal, position })
}
