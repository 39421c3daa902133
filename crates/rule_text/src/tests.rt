use super::*;
use book::SheetSize;
use rules::NO_SPAN;
use std::process::Abort;
use std::test::Fail;

/// A rule of choices, a rule with counts too, and one without items.
const RULES: [RuleRow; 3] = [
    RuleRow {
        body: Side {
            entries: Span { start: 0, end: 2 },
            counts: NO_SPAN,
        },
        head: Side {
            entries: Span { start: 2, end: 3 },
            counts: NO_SPAN,
        },
    },
    RuleRow {
        body: Side {
            entries: Span { start: 3, end: 5 },
            counts: Span { start: 0, end: 2 },
        },
        head: Side {
            entries: Span { start: 5, end: 9 },
            counts: Span { start: 2, end: 3 },
        },
    },
    RuleRow {
        body: Side {
            entries: NO_SPAN,
            counts: NO_SPAN,
        },
        head: Side {
            entries: NO_SPAN,
            counts: NO_SPAN,
        },
    },
];

const COUNTS: [CountRow; 3] = [
    CountRow {
        lower: 0,
        upper: 1,
        choices: Span { start: 3, end: 5 },
    },
    CountRow {
        lower: 0,
        upper: 0,
        choices: Span { start: 5, end: 5 },
    },
    CountRow {
        lower: 1,
        upper: 65_535,
        choices: Span { start: 6, end: 8 },
    },
];

const ENTRIES: [u16; 9] = [1, 20, 300, 4, 5, 6, 7, 8, 4096];

const TEXT: &[u8] = b"p 4096 3\n1 20 , 300\n{ 0 1 4 5 } { 0 0 } , 6 { 1 65535 7 8 } 4096\n,\n";

fn says(rt: &impl Abort, out: &mut [u8], expected: Option<&[u8]>, what: &str) -> Result<(), Fail> {
    let Some(size) = SheetSize::new(4096) else {
        return Err(Fail::new("a sheet has 4,096 choices"));
    };
    let book = RuleBook::new(size, &RULES, &COUNTS, &ENTRIES);
    match (write_rules(&book, out), expected) {
        (Ok(length), Some(text)) => {
            assert_eq!(rt; &out[0..length], text, "{what}");
            Ok(())
        },
        (Err(fault), None) => {
            assert_eq!(rt; fault.line, 1, "{what}");
            Ok(())
        },
        (Ok(_), None) => Err(Fail::new("written into too short a list")),
        (Err(_), Some(_)) => Err(Fail::new("refused")),
    }
}

#[test]
fn rules_and_counts(rt: HostRuntime) -> Result<(), Fail> {
    let mut long = [0; 100];
    says(&rt, &mut long, Some(TEXT), "with room to spare")?;
    let mut just = [0; 67];
    says(&rt, &mut just, Some(TEXT), "with just the room")?;
    let mut short = [0; 66];
    says(&rt, &mut short, None, "with a byte too few")
}
