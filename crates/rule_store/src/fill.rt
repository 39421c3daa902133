//! The filling of storage from a file that was checked.
ghost use Rattle.std.specs.Prelude.{◌≡◌, Some, slice_set};
ghost use Rattle.rule_store.specs.Filling.{side_from, side_to, filler_after, row_of, rules_put, counts_put, entries_put, Filled};

use rule_file::{FileReader, Part, Tally};
use rules::{CountRow, RuleRow, Side, Span};

/// The rule and the count that are being read, and where they will stand.
#[derive(Clone, Copy, Default)]
struct Filler {
    rule: RuleRow,
    rule_at: u16,
    count: CountRow,
    count_at: u16,
}

/// What is whole once a part is read, after the place where it stands in its list.
#[derive(Clone, Copy)]
enum Row {
    Rule(u16, RuleRow),
    Count(u16, CountRow),
    Entry(u16, u16),
}

// Writes an element, where the list has that place. By an index, since for lists of any type the check does not know what a
// write through `get_mut` leaves.
fn store<T: Copy>(list: &mut [T], at: u16, value: T)
    ensures { list.new ≡ slice_set list.old at value }
{
    let at = at as usize;
    if at < list.len() {
        list[at] = value;
    }
}

// A side that starts with the next entry and the next count.
fn begun(tally: Tally) -> Side
    ensures { result ≡ side_from tally }
{
    Side {
        entries: Span {
            start: tally.entries,
            end: tally.entries,
        },
        counts: Span {
            start: tally.counts,
            end: tally.counts,
        },
    }
}

// Ends a side before the next entry and the next count.
fn end(side: &mut Side, tally: Tally)
    ensures { side.new ≡ side_to side.old tally }
{
    side.entries.end = tally.entries;
    side.counts.end = tally.counts;
}

impl Filler {
    // Takes one part more: the row or the entry that is whole with it. The tally is that of the parts before it.
    fn take(&mut self, part: Part, tally: Tally) -> Option<Row>
        ensures filler { self.new ≡ filler_after self.old tally part }
        ensures row { result ≡ row_of self.old tally part }
    {
        match part {
            Part::RuleLine => {
                self.rule.body = begun(tally);
                self.rule_at = tally.rules;
            }
            Part::Choice(n) | Part::Member(n) => return Some(Row::Entry(tally.entries, n)),
            Part::CountOpen => {
                self.count.choices.start = tally.entries;
                self.count_at = tally.counts;
            }
            Part::Lower(n) => self.count.lower = n,
            Part::Upper(n) => self.count.upper = n,
            Part::CountClose => {
                self.count.choices.end = tally.entries;
                return Some(Row::Count(self.count_at, self.count));
            }
            Part::Comma => {
                end(&mut self.rule.body, tally);
                self.rule.head = begun(tally);
            }
            Part::RuleEnd => {
                end(&mut self.rule.head, tally);
                return Some(Row::Rule(self.rule_at, self.rule));
            }
            _ => {}
        }
        None
    }
}

impl Row {
    // Puts it into its list.
    fn put(self, rules: &mut [RuleRow], counts: &mut [CountRow], entries: &mut [u16])
        ensures rules { rules.new ≡ rules_put (Some self) rules.old }
        ensures counts { counts.new ≡ counts_put (Some self) counts.old }
        ensures entries { entries.new ≡ entries_put (Some self) entries.old }
    {
        match self {
            Row::Rule(at, row) => store(rules, at, row),
            Row::Count(at, row) => store(counts, at, row),
            Row::Entry(at, choice) => store(entries, at, choice),
        }
    }
}

/// Fills the storage from a file that has no fault.
// The lists stand as they were lent, one by one.
pub(super) fn fill(
    bytes: &[u8],
    rules: &mut [RuleRow],
    counts: &mut [CountRow],
    entries: &mut [u16],
)
    ensures { Filled bytes.now rules.old counts.old entries.old rules.new counts.new entries.new }
{
    let mut reader = FileReader::new(bytes);
    let mut filler = Filler::default();
    let mut tally = reader.tally();
    // A file that was checked has no fault before its end.
    while let Ok(part) = reader.next_part() {
        if part == Part::End {
            return;
        }
        if let Some(row) = filler.take(part, tally) {
            row.put(rules, counts, entries);
        }
        tally = reader.tally();
    }
}
