ghost use Rattle.std.specs.Prelude.{◌≡◌, true, false, length, if◌then◌else◌, nat_lt, slice_index_or};
ghost use Rattle.book.specs.declared.Mark.TheVariants.{Open as OpenMark, Yes as YesMark, No as NoMark};
ghost use Rattle.book.specs.declared.Reading.TheVariants.{Broken as BrokenReading, Quiet as QuietReading};
ghost use Rattle.book.specs.Books.{Settled};
ghost use Rattle.solver.specs.Tree.{first_open};
ghost use Rattle.std.proofs.Common.{arith};
ghost use Rattle.solver.specs.Silent.{silent_laws};

use super::*;
use book::Unfit;
use std::test::Fail;

// A book over two choices that never forces: it allows what has no at the second choice, or nothing at all.
#[derive(Drop)]
struct SecondNo {
    lenient: bool,
}

impl Book for SecondNo {
    const KIND: u16 = 9;

    ghost kind = { 9 };

    ghost size = { λ _. 2 };

    ghost allows = { λ b a. (length a ≡ 2) × Settled a × (elim (slice_index_or a 1 OpenMark) [ OpenMark ↦ false | YesMark ↦ false | NoMark ↦ b.lenient ] ≡ true) };

    ghost reads = { λ b ms. (if nat_lt (first_open ms) (length ms) then QuietReading else (if (elim (slice_index_or ms 1 OpenMark) [ OpenMark ↦ false | YesMark ↦ false | NoMark ↦ b.lenient ]) then QuietReading else BrokenReading)) };

    ghost lawful = { λ b. silent_laws 2 (λ ms. elim (slice_index_or ms 1 OpenMark) [ OpenMark ↦ false | YesMark ↦ false | NoMark ↦ b.lenient ]) (omega arith) };

    fn kind_number(&self) -> u16 {
        Self::KIND
    }

    fn choices(&self) -> u16 {
        2
    }

    fn read(&self, marks: &[Mark]) -> Result<Reading, Unfit> {
        if marks.len() != 2 {
            return Err(Unfit);
        }
        if lowest_open(marks).is_some() {
            return Ok(Reading::Quiet);
        }
        match marks[1] {
            Mark::No if self.lenient => Ok(Reading::Quiet),
            _ => Ok(Reading::Broken),
        }
    }
}

// A search whose lists hold what an earlier one may have left.
fn searched(lenient: bool, allowance: u64) -> Result<(Verdict, [Mark; 2], [u16; 2]), JobFault> {
    let mut marks = [Mark::No; 2];
    let mut work = [7; 2];
    let verdict = search(&SecondNo { lenient }, allowance, &mut marks, &mut work)?;
    Ok((verdict, marks, work))
}

fn verdict(ending: Ending, trials: u64) -> Verdict {
    Verdict { ending, trials }
}

#[test]
fn finds_the_first(rt: HostRuntime) -> Result<(), Fail> {
    assert_eq!(rt;
        searched(true, 2)?,
        (verdict(Ending::Found, 2), [Mark::Yes, Mark::No], [0, 0])
    );
    Ok(())
}

#[test]
fn finds_none(rt: HostRuntime) -> Result<(), Fail> {
    assert_eq!(rt;
        searched(false, 3)?,
        (verdict(Ending::None, 3), [Mark::Open; 2], [0, 0])
    );
    Ok(())
}

#[test]
fn is_spent(rt: HostRuntime) -> Result<(), Fail> {
    assert_eq!(rt;
        searched(true, 1)?,
        (verdict(Ending::Spent, 1), [Mark::Open; 2], [0, 0])
    );
    Ok(())
}

#[test]
fn refuses_a_short_list(rt: HostRuntime) {
    let mut marks = [Mark::Yes; 2];
    let mut work = [7; 1];
    let fault = JobFault {
        cause: JobCause::ListLength,
        place: 0,
    };
    assert_eq!(rt;
        search(&SecondNo { lenient: true }, 9, &mut marks, &mut work),
        Err(fault)
    );
    assert_eq!(rt; (marks, work), ([Mark::Yes; 2], [7]));
}
