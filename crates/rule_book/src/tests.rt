use super::*;
use rules::NO_SPAN;
use std::test::Fail;

const O: Mark = Mark::Open;

const Y: Mark = Mark::Yes;

const N: Mark = Mark::No;

/// The reading of rules on four choices.
fn read_four<'a>(
    rules: &'a [RuleRow],
    counts: &'a [CountRow],
    entries: &'a [u16],
    marks: [Mark; 4],
) -> Result<Reading, Fail> {
    let Some(size) = SheetSize::new(4) else {
        return Err(Fail::new("four choices are few enough"));
    };
    let book = RuleBook::new(size, rules, counts, entries);
    Ok(book.read(&marks)?)
}

#[test]
fn choices(rt: HostRuntime) -> Result<(), Fail> {
    let rules = [RuleRow {
        body: Side {
            entries: Span { start: 0, end: 2 },
            counts: NO_SPAN,
        },
        head: Side {
            entries: Span { start: 2, end: 4 },
            counts: NO_SPAN,
        },
    }];
    let entries = [1, 2, 3, 4];
    let cases = [
        ([Y, Y, N, N], Reading::Broken),
        ([Y, Y, N, O], Reading::Forced(4, Answer::Yes)),
        ([Y, O, N, N], Reading::Forced(2, Answer::No)),
        ([Y, O, N, O], Reading::Quiet),
        ([N, O, N, N], Reading::Quiet),
        ([Y, Y, O, Y], Reading::Quiet),
    ];
    for (marks, reading) in cases {
        assert_eq!(rt; read_four(&rules, &[], &entries, marks)?, reading);
    }
    Ok(())
}

#[test]
fn count_in_head(rt: HostRuntime) -> Result<(), Fail> {
    let counts = [CountRow {
        lower: 1,
        upper: 1,
        choices: Span { start: 1, end: 4 },
    }];
    let rules = [RuleRow {
        body: Side {
            entries: Span { start: 0, end: 1 },
            counts: NO_SPAN,
        },
        head: Side {
            entries: Span { start: 1, end: 4 },
            counts: Span { start: 0, end: 1 },
        },
    }];
    let entries = [1, 2, 3, 4];
    let cases = [
        ([Y, Y, O, O], Reading::Forced(3, Answer::No)),
        ([Y, N, N, O], Reading::Forced(4, Answer::Yes)),
        ([Y, N, O, O], Reading::Quiet),
        ([O, Y, O, O], Reading::Quiet),
        ([Y, Y, Y, O], Reading::Broken),
        ([O, Y, Y, O], Reading::Forced(1, Answer::No)),
    ];
    for (marks, reading) in cases {
        assert_eq!(rt; read_four(&rules, &counts, &entries, marks)?, reading);
    }
    Ok(())
}
