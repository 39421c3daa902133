//! Reads a box list from standard input, and prints where the names go, that they can't all be set, that the allowance is
//! spent, or why the list is refused.
#![tactic(auto)]

use box_book::BOX_LIMIT;
use box_list::has_too_many;
use refusal::Refusal;
use setting::{ALLOWANCE, MOST_OUTPUT, set_boxes};
use std::io;
use std::io::{Read, Write};

/// The most bytes that are read at a time.
const BLOCK: usize = 65536;

/// How many rows end in a block.
fn row_ends(block: &[u8]) -> usize {
    block.iter().filter(|b| **b == b'\n').count()
}

/// Reads standard input block by block, to its end or until the text has too many boxes, which no further bytes can mend.
/// The whole text is looked at only once so many rows have ended that there can be too many.
fn read_input(rt: &HostRuntime) -> io::Result<Vec<u8>> {
    let mut input = rt.stdin();
    let mut text = Vec::new(rt.alloc());
    let mut block = [0; BLOCK];
    let mut ends: usize = 0;
    // Nothing says that an input ends, so the blocks are counted.
    for _ in 0..u64::MAX {
        let n = input.read(&mut block)?;
        text.extend_from_slice(&block[..n])?;
        ends = ends.saturating_add(row_ends(&block[..n]));
        if n == 0 || (ends >= BOX_LIMIT && has_too_many(text.as_slice())) {
            break;
        }
    }
    Ok(text)
}

fn main(rt: HostRuntime) -> io::Result<()> {
    let text = read_input(&rt)?;
    let mut out = [0; MOST_OUTPUT];
    match set_boxes(text.as_slice(), ALLOWANCE, &mut out) {
        Ok(n) => rt.stdout().write_all(&out[..n]),
        Err(fault) => rt.println(Refusal::from(fault)),
    }
}
