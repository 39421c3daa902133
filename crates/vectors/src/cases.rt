//! What is handed in to a call that sets a sheet, and what it prints.
use refusal::JobFault;
use std::alloc::{AllocError, Global};
use std::process::Abort;
use std::test::Fail;

/// What is handed in, the allowance, and what is printed.
#[derive(Clone, Copy)]
pub(crate) struct Case {
    pub(crate) text: &'static [u8],
    pub(crate) allowance: u64,
    pub(crate) says: &'static [u8],
}

/// A case with the allowance of the programs.
pub(crate) const fn prints(text: &'static [u8], says: &'static [u8]) -> Case {
    Case {
        text,
        allowance: 1_000_000,
        says,
    }
}

/// The call prints this of the text.
pub(crate) fn says<F: Fn(&[u8], u64, &mut [u8]) -> Result<usize, JobFault>>(
    rt: &impl Abort,
    set: &F,
    text: &[u8],
    allowance: u64,
    expected: &[u8],
    what: &str,
) -> Result<(), Fail>
    requires { F.IsAlwaysCallable set.now }
{
    let mut out = [0; 128];
    let n = set(text, allowance, &mut out)?;
    assert_eq!(rt; out.get(..n), Some(expected), "{what}");
    Ok(())
}

/// The call prints what each case says.
pub(crate) fn all_hold<F: Fn(&[u8], u64, &mut [u8]) -> Result<usize, JobFault>>(
    rt: &impl Abort,
    set: &F,
    cases: &[Case],
) -> Result<(), Fail>
    requires { F.IsAlwaysCallable set.now }
{
    for c in cases {
        says(rt, set, c.text, c.allowance, c.says, "a row of the table")?;
    }
    Ok(())
}

/// A text that begins, repeats a part and ends so.
pub(crate) fn repeated(
    heap: Global,
    begin: &[u8],
    part: &[u8],
    times: usize,
    end: &[u8],
) -> Result<Vec<u8>, AllocError> {
    let mut text = Vec::from_slice(heap, begin)?;
    for _ in 0..times {
        text.extend_from_slice(part)?;
    }
    text.extend_from_slice(end)?;
    Ok(text)
}
