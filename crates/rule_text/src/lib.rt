//! Rule books written out as rule files.
//!
//! The file is a header and then each rule on a line, with one space between tokens, no leading zeros and no comments.
//! specs/Writing.antt has it as `writing`; it reads back as the same rules, by the theorems of specs/Back.antt.
#![tactic(auto)]

ghost use Rattle.std.specs.Prelude.{length, OnOk};
ghost use Rattle.std.specs.List.{All};
ghost use Rattle.rules.specs.Rules.{count as count_item};
ghost use Rattle.rules.specs.Storage.{side_items, rule_of};
ghost use Rattle.rule_book.specs.Meaning.{rules_of, size_of};
ghost use Rattle.rule_file.specs.Form.{SpellsFile};
ghost use Rattle.rule_text.specs.Writing.{numerals, item_tokens, items_tokens, rule_tokens, line_text, writing, Written};
ghost use Rattle.rule_text.specs.Padding.{padded, all_padded};
ghost use Rattle.rule_text.specs.Back.{Small, SmallItem, SmallRule, WritingsReadBack, WritingsAreFiles, BooksReturn};

use book::Book;
use output::{Text, write_whole};
use refusal::At;
use rule_book::{RuleBook, part};
use rule_file::{Fault, FileCause, FileFault, MAX_BYTES};
use rules::{CountRow, RuleRow, Side, Span};

/// The refusal to write. Its place is 0, which is on line 1 of any file.
const UNWRITTEN: FileFault = FileFault {
    fault: Fault::File(At {
        cause: FileCause::Writing,
        place: 0,
    }),
    line: 1,
};

/// Where a token's space stands: after it before the comma of a rule, and before it from there on, so that one space comes
/// between any two tokens and none at the ends of the line.
// An enum and no closure: what is written names which of the two it is.
#[derive(Clone, Copy)]
enum Spacing {
    After,
    Before,
}

/// A token with its space.
#[derive(Clone, Copy)]
struct Spaced<T>(Spacing, T);

/// Choices, each with its space.
#[derive(Clone, Copy)]
struct Choices<'a> {
    spacing: Spacing,
    choices: &'a [u16],
}

/// A count of those choices.
#[derive(Clone, Copy)]
struct Count<'a> {
    spacing: Spacing,
    row: CountRow,
    choices: &'a [u16],
}

/// The items of one side of a rule.
#[derive(Clone, Copy)]
struct Items<'a> {
    spacing: Spacing,
    book: &'a RuleBook<'a>,
    side: Side,
}

/// The line of a rule.
#[derive(Clone, Copy)]
struct RuleLine<'a> {
    book: &'a RuleBook<'a>,
    row: RuleRow,
}

/// The file of a rule book.
#[derive(Clone, Copy)]
struct BookFile<'a> {
    book: &'a RuleBook<'a>,
}

impl<T: Text + Copy> Text for Spaced<T> {
    ghost bytes = { λ text. padded text.0 (T.bytes text.1) };

    ghost known = { λ text. T.known text.1 };

    fn put(&self, out: &mut [u8], at: usize) -> Option<usize> {
        match self.0 {
            Spacing::After => (self.1, " ").put(out, at),
            Spacing::Before => (" ", self.1).put(out, at),
        }
    }
}

impl<'a> Text for Choices<'a> {
    ghost bytes = { λ text. all_padded text.spacing (numerals text.choices.now) };

    ghost known = { λ text. All Small text.choices.now };

    fn put(&self, out: &mut [u8], start: usize) -> Option<usize> {
        let Choices { spacing, choices } = *self;
        let mut at = start;
        for choice in choices {
            at = Spaced(spacing, *choice as u64).put(out, at)?;
        }
        Some(at)
    }
}

impl<'a> Text for Count<'a> {
    ghost bytes = { λ text. all_padded text.spacing (item_tokens (count_item text.row.lower text.row.upper text.choices.now)) };

    ghost known = { λ text. SmallItem (count_item text.row.lower text.row.upper text.choices.now) };

    fn put(&self, out: &mut [u8], at: usize) -> Option<usize> {
        let Count {
            spacing,
            row,
            choices,
        } = *self;
        let lower = Spaced(spacing, row.lower as u64);
        let upper = Spaced(spacing, row.upper as u64);
        let bounds = (lower, upper);
        let choices = Choices { spacing, choices };
        (Spaced(spacing, "{"), bounds, choices, Spaced(spacing, "}")).put(out, at)
    }
}

impl<'a> Text for Items<'a> {
    ghost bytes = { λ text. all_padded text.spacing (items_tokens (side_items text.book.now.counts.now text.book.now.entries.now text.side)) };

    ghost known = { λ text. All SmallItem (side_items text.book.now.counts.now text.book.now.entries.now text.side) };

    /// Before each count come the choices that stand before it.
    fn put(&self, out: &mut [u8], start: usize) -> Option<usize> {
        let Items {
            spacing,
            book,
            side,
        } = *self;
        let entries = book.entries();
        let rows = part(book.counts(), side.counts);
        let mut at = start;
        let mut from = side.entries.start;
        for row in rows {
            let lone = Span {
                start: from,
                end: row.choices.start,
            };
            let lone = Choices {
                spacing,
                choices: part(entries, lone),
            };
            let count = Count {
                spacing,
                row: *row,
                choices: part(entries, row.choices),
            };
            at = (lone, count).put(out, at)?;
            from = row.choices.end;
        }
        let rest = Span {
            start: from,
            end: side.entries.end,
        };
        let rest = Choices {
            spacing,
            choices: part(entries, rest),
        };
        rest.put(out, at)
    }
}

impl<'a> Text for RuleLine<'a> {
    ghost bytes = { λ text. line_text (rule_tokens (rule_of text.book.now.counts.now text.book.now.entries.now text.row)) };

    ghost known = { λ text. SmallRule (rule_of text.book.now.counts.now text.book.now.entries.now text.row) };

    fn put(&self, out: &mut [u8], at: usize) -> Option<usize> {
        let RuleLine { book, row } = *self;
        let body = Items {
            spacing: Spacing::After,
            book,
            side: row.body,
        };
        let head = Items {
            spacing: Spacing::Before,
            book,
            side: row.head,
        };
        (body, ",", head, "\n").put(out, at)
    }
}

impl<'a> Text for BookFile<'a> {
    ghost bytes = { λ text. writing (size_of text.book.now) (rules_of text.book.now) };

    ghost known = { λ text. SpellsFile (writing (size_of text.book.now) (rules_of text.book.now)) (size_of text.book.now) (length (rules_of text.book.now)) (rules_of text.book.now) };

    fn put(&self, out: &mut [u8], start: usize) -> Option<usize> {
        let book = self.book;
        let rules = book.rules();
        let size = ("p ", book.choices() as u64);
        let count = (" ", rules.len() as u64);
        let mut at = (size, count, "\n").put(out, start)?;
        for row in rules {
            at = RuleLine { book, row: *row }.put(out, at)?;
        }
        Some(at)
    }
}

/// Writes a rule book out: its header and its rules. A list that is too short and more bytes than a rule file may have are
/// refused.
pub fn write_rules(book: &RuleBook, out: &mut [u8]) -> Result<usize, FileFault>
    ensures written { Written (writing (size_of book.now) (rules_of book.now)) out.old out.new result }
    ensures spelled { OnOk result (SpellsFile (writing (size_of book.now) (rules_of book.now)) (size_of book.now) (length (rules_of book.now)) (rules_of book.now)) }
    ensures back { WritingsReadBack }
    ensures files { WritingsAreFiles }
    ensures returned { BooksReturn }
{
    write_whole(&BookFile { book }, MAX_BYTES, out).ok_or(UNWRITTEN)
}

#[cfg(test)]
mod tests;
