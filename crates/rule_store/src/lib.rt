//! The reading of a rule file into storage that the caller lends.
#![tactic(auto)]

ghost use Rattle.std.specs.Prelude.{MatchResult};
ghost use Rattle.rule_book.specs.Meaning.{rules_of, size_of};
ghost use Rattle.rule_file.specs.Files.{Refused};
ghost use Rattle.rule_file.specs.Form.{File};
ghost use Rattle.rule_store.specs.Storing.{IsBlank, Read};

mod fill;

use fill::fill;
use refusal::At;
use rule_book::RuleBook;
use rule_file::{Extent, Fault, FileCause, FileFault, check_file};
use rules::{CountRow, MAX_COUNTS, MAX_ENTRIES, MAX_RULES, NO_COUNT, NO_RULE, RuleRow};

/// Reads a file into the storage lent, or refuses it and leaves the storage as it was.
// Three lists and no struct of them: the caller lends each by itself, at any length.
pub fn read_file(
    bytes: &[u8],
    rules: &mut [RuleRow],
    counts: &mut [CountRow],
    entries: &mut [u16],
) -> Result<Extent, FileFault>
    ensures { Read bytes.now rules.old counts.old entries.old rules.new counts.new entries.new result }
{
    if rules.len() < MAX_RULES || counts.len() < MAX_COUNTS || entries.len() < MAX_ENTRIES {
        let fault = At {
            cause: FileCause::Storage,
            place: 0,
        };
        return Err(FileFault::from((Fault::File(fault), 1)));
    }
    let extent = check_file(bytes)?;
    fill(bytes, rules, counts, entries);
    Ok(extent)
}

/// Storage of the full size, for the rules of any file.
#[derive(Drop)]
pub struct Storage {
    rules: [RuleRow; MAX_RULES],
    counts: [CountRow; MAX_COUNTS],
    entries: [u16; MAX_ENTRIES],
}

impl Storage {
    /// Storage that holds nothing yet.
    pub fn new() -> Storage
        ensures { IsBlank result }
    {
        Storage {
            rules: [NO_RULE; MAX_RULES],
            counts: [NO_COUNT; MAX_COUNTS],
            entries: [0; MAX_ENTRIES],
        }
    }

    /// The book of a file's rules, which this storage then holds, or the file's refusal.
    pub fn read(&mut self, bytes: &[u8]) -> Result<RuleBook<'_>, FileFault>
        ensures { MatchResult result (λ b. File bytes.now (size_of b) (rules_of b)) (Refused bytes.now) }
    {
        let extent = read_file(bytes, &mut self.rules, &mut self.counts, &mut self.entries)?;
        let rows = &self.rules[..extent.rules as usize];
        Ok(RuleBook::new(extent.size, rows, &self.counts, &self.entries))
    }
}
