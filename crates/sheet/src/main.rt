//! Reads a rule file from standard input, and prints where the names go, that they can't all be set, that the allowance
//! is spent, or why the file is refused.
#![tactic(auto)]

ghost use Rattle.std.specs.Prelude.{◌≤◌, length, IfOk};

use refusal::Refusal;
use rule_file::MAX_BYTES;
use setting::{ALLOWANCE, MOST_OUTPUT, set_sheet};
use std::io;
use std::io::{Read, Write};

/// One byte more than a file may have: so many are read, and no more, to know that there are too many.
const MOST_BYTES: usize = MAX_BYTES + 1;

/// Fills the buffer from standard input, as far as the input goes.
// A loop over an index: the library fills a slice whole or not at all, or reads into memory that can run out.
fn read_input(rt: &HostRuntime, buffer: &mut [u8]) -> io::Result<usize>
    ensures { IfOk result (λ n. n ≤ length buffer.old) }
{
    let mut input = rt.stdin();
    let mut len = 0;
    while len < buffer.len() {
        let more = input.read(&mut buffer[len..])?;
        if more == 0 {
            break;
        }
        len += more;
    }
    Ok(len)
}

fn main(rt: HostRuntime) -> io::Result<()> {
    let mut file = [0; MOST_BYTES];
    let len = read_input(&rt, &mut file)?;
    let mut out = [0; MOST_OUTPUT];
    match set_sheet(&file[..len], ALLOWANCE, &mut out) {
        Ok(n) => rt.stdout().write_all(&out[..n]),
        Err(fault) => rt.println(Refusal::from(fault)),
    }
}
