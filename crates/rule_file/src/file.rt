//! The file layer: the limits, the number of rules, and the reading of a whole file.
ghost use Rattle.std.specs.Prelude.{◌≡◌, ◌≤◌};
ghost use Rattle.std.specs.Result.{result_err};
ghost use Rattle.scan.specs.Scans.{ahead};
ghost use Rattle.rule_file.specs.Faults.{line_of, located};
ghost use Rattle.rule_file.specs.Files.{Started, Checked, SpelledOnce, AnsweredOnce, PassedAsForm};
ghost use Rattle.rule_file.specs.Machine.{mach, surplus_fault, next_fault, Moves, ReadThrough, Passed};
ghost use Rattle.rule_file.specs.Reader.{OneMore, Counted, Nearer, Tallied};

use super::fault::{Fault, FileCause, FileFault};
use super::line::{LineReader, Part};
use book::{MAX_CHOICES, SheetSize};
use refusal::At;
use rules::{MAX_COUNTS, MAX_ENTRIES, MAX_RULES};
use scan::Scanner;

/// The most bytes that a file may have.
pub const MAX_BYTES: usize = 65535;

/// What a file's storage holds: the rules of a sheet of that size.
#[derive(Clone, Copy)]
pub struct Extent {
    pub size: SheetSize,
    pub rules: u16,
}

/// What was counted so far.
#[derive(Clone, Copy, Default)]
pub struct Tally {
    /// The number of rules that the header says.
    pub declared: u16,
    pub rules: u16,
    pub counts: u16,
    pub entries: u16,
}

impl Tally {
    /// Counts a part in, unless it is one too many.
    fn count(&mut self, part: Part) -> Result<(), FileCause>
        ensures { Counted self.old part self.new result }
    {
        match part {
            Part::Size(n) if n as usize > MAX_CHOICES => Err(FileCause::Limit),
            Part::Rules(n) if n as usize > MAX_RULES => Err(FileCause::Limit),
            Part::Rules(n) => {
                self.declared = n;
                Ok(())
            }
            Part::RuleLine => one_more(&mut self.rules, self.declared as usize, FileCause::Rules),
            Part::CountOpen => one_more(&mut self.counts, MAX_COUNTS, FileCause::Limit),
            Part::Choice(_) | Part::Member(_) => {
                one_more(&mut self.entries, MAX_ENTRIES, FileCause::Limit)
            }
            Part::End if self.rules < self.declared => Err(FileCause::Rules),
            _ => Ok(()),
        }
    }
}

// Counts one more, where there are fewer than `most`.
fn one_more(n: &mut u16, most: usize, refusal: FileCause) -> Result<(), FileCause>
    requires { most ≤ 65535 }
    ensures { OneMore n.old most refusal n.new result }
{
    if *n as usize >= most {
        return Err(refusal);
    }
    *n += 1;
    Ok(())
}

/// A reader of a whole file, part by part.
#[derive(Drop)]
pub struct FileReader<'a> {
    scanner: Scanner<'a>,
    line: LineReader,
    tally: Tally,
}

impl<'a> FileReader<'a> {
    /// A reader at the start of a file.
    pub fn new(bytes: &'a [u8]) -> FileReader<'a>
        ensures { Started result bytes.now }
    {
        FileReader {
            scanner: Scanner::new(bytes),
            line: LineReader::new(),
            tally: Tally::default(),
        }
    }

    /// What was counted so far.
    pub fn tally(&self) -> Tally
        ensures { result ≡ self.now.tally }
    {
        self.tally
    }

    /// The size that the header says.
    pub fn size(&self) -> SheetSize
        ensures { result ≡ self.now.line.size }
    {
        self.line.size()
    }

    /// The next part of the file, or the fault that is told of it.
    pub fn next_part(&mut self) -> Result<Part, Fault>
        ensures moves { Moves self.old self.new result }
        ensures nearer { Nearer self.old self.new result }
        ensures tallied { Tallied self.old.tally self.new.tally result }
    {
        let (place, part) = self.line.next_part(&mut self.scanner)?;
        if let Err(cause) = self.tally.count(part) {
            return Err(match part {
                // A rule's line is refused only where it is one too many.
                Part::RuleLine => self.surplus(place),
                _ => Fault::File(At { cause, place }),
            });
        }
        Ok(part)
    }

    // The fault of a line that is one rule too many: that of its first token, if this stands at the line's own place,
    // since any other cause there has a smaller number.
    fn surplus(&mut self, place: usize) -> Fault
        ensures { result ≡ surplus_fault (mach self.old) place (ahead self.old.scanner) }
    {
        match self.try_token() {
            Err(fault) if fault.place() == place => fault,
            _ => Fault::File(At {
                cause: FileCause::Rules,
                place,
            }),
        }
    }

    // Takes the next token, or answers the fault that it has by itself.
    fn try_token(&mut self) -> Result<(), Fault>
        ensures { result_err result ≡ next_fault (mach self.old) (ahead self.old.scanner) }
    {
        let (place, part) = self.line.next_part(&mut self.scanner)?;
        let counted = self.tally.count(part);
        counted.map_err(|cause| Fault::File(At { cause, place }))
    }
}

// Reads the file to its end.
fn read_through(bytes: &[u8]) -> Result<Extent, Fault>
    ensures { ReadThrough bytes.now result }
{
    let mut reader = FileReader::new(bytes);
    while reader.next_part()? != Part::End {}
    Ok(Extent {
        size: reader.size(),
        rules: reader.tally().rules,
    })
}

// The line of a place: the line feeds before it, plus 1.
fn line_of(bytes: &[u8], place: usize) -> usize
    ensures { result ≡ line_of bytes.now place }
{
    let before = &bytes[..place.min(bytes.len())];
    before.iter().filter(|b| **b == b'\n').count() + 1
}

/// A fault with its line.
fn refused(fault: Fault, bytes: &[u8]) -> FileFault
    ensures { result ≡ located bytes.now fault }
{
    FileFault::from((fault, line_of(bytes, fault.place())))
}

/// Checks a file and writes nothing: what it takes in storage, or the fault that is told of it.
pub fn check_file(bytes: &[u8]) -> Result<Extent, FileFault>
    ensures checked { Checked bytes.now result }
    ensures spelled { SpelledOnce }
    ensures answered { AnsweredOnce }
    ensures passes { Passed bytes.now result }
    ensures parts { PassedAsForm }
{
    if bytes.len() > MAX_BYTES {
        let fault = At {
            cause: FileCause::Bytes,
            place: MAX_BYTES,
        };
        return Err(refused(Fault::File(fault), bytes));
    }
    read_through(bytes).map_err(|fault| refused(fault, bytes))
}
