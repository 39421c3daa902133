//! A box list whose names can't all be set, and what the search finds of it.
#![tactic(auto)]

use anyhow::anyhow;
use setting::{ALLOWANCE, MOST_OUTPUT, set_boxes};
use std::fs;
use std::io::Write;

/// Reads a box list, and tells what the search finds.
fn run_boxes(rt: &HostRuntime, path: &str) -> anyhow::Result<()> {
    let text = fs::read(rt, path)?;
    let mut out = [0; MOST_OUTPUT];
    let Ok(n) = set_boxes(text.as_slice(), ALLOWANCE, &mut out) else {
        return Err(anyhow!("the verdict is too long"));
    };
    println!(rt; "{path}")?;
    rt.stdout().write_all(&out[..n])?;
    Ok(())
}

fn main(rt: HostRuntime) -> anyhow::Result<()> {
    run_boxes(&rt, "crowded.boxes")
}
