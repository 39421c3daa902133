//! The sheets of the aspps manual of 30 October 2006 that it prints models of. For each it is told whether the book allows
//! those models, and a near miss that differs from the first model at one choice, and then what the search finds.
#![tactic(auto)]

ghost use Rattle.std.specs.Prelude.{◌≡◌, length};
ghost use Rattle.models.specs.Arrangements.{mark_yes, arranged, Tells};

use anyhow::anyhow;
use book::{Book, MAX_CHOICES, Mark, Reading};
use rule_store::Storage;
use setting::{ALLOWANCE, MOST_OUTPUT, print_search};
use std::fs;
use std::io::Write;

/// A set of atoms that may be a model, by the choices that they are.
#[derive(Clone, Copy)]
struct Candidate {
    name: &'static str,
    yes: &'static [u16],
}

/// A rule file, and what is asked of its book.
#[derive(Clone, Copy)]
struct Example {
    path: &'static str,
    candidates: &'static [Candidate],
}

const COLOURING: Example = Example {
    path: "colouring.rules",
    candidates: &[
        Candidate {
            name: "colours r g r g",
            yes: &[1, 5, 7, 11],
        },
        Candidate {
            name: "colours b g b g",
            yes: &[3, 5, 9, 11],
        },
        Candidate {
            name: "colours r g r g, and r too at vertex 4",
            yes: &[1, 5, 7, 10, 11],
        },
    ],
};

const QUEENS: Example = Example {
    path: "queens.rules",
    candidates: &[
        Candidate {
            name: "columns 7 1 3 8 6 4 2 5",
            yes: &[7, 9, 19, 32, 38, 44, 50, 61],
        },
        Candidate {
            name: "columns 7 1 3 8 6 4 2, and row 8 empty",
            yes: &[7, 9, 19, 32, 38, 44, 50],
        },
    ],
};

const COVER: Example = Example {
    path: "cover.rules",
    candidates: &[
        Candidate {
            name: "vertices 3 4",
            yes: &[3, 4],
        },
        Candidate {
            name: "vertex 3 alone",
            yes: &[3],
        },
    ],
};

/// Marks yes at a choice, if there is such a choice.
fn mark_yes(marks: &mut [Mark], choice: u16)
    ensures { marks.new ≡ mark_yes choice marks.old }
{
    // By an index: what a write through `get_mut` leaves did not prove.
    let choice = choice as usize;
    if choice > 0 && choice <= marks.len() {
        marks[choice - 1] = Mark::Yes;
    }
}

/// Marks yes at these choices, and no at all others.
fn arrange(marks: &mut [Mark], yes: &[u16])
    ensures { marks.new ≡ arranged (length marks.old) yes.now }
{
    marks.fill(Mark::No);
    for choice in yes {
        mark_yes(marks, *choice);
    }
}

/// Whether the book allows the arrangement with yes at these choices and no at all others. The book's own reading tells:
/// marks with none open are read quiet exactly if they are allowed.
fn allows<B: Book>(book: &B, yes: &[u16]) -> bool
    ensures { Tells (B.Book.allows book.now (arranged (B.Book.size book.now) yes.now)) result }
{
    let n = book.choices() as usize;
    let mut marks = [Mark::Open; MAX_CHOICES];
    let marks = &mut marks[0..n];
    arrange(marks, yes);
    let Ok(reading) = book.read(marks) else {
        unreachable()
    };
    matches!(reading, Reading::Quiet)
}

/// Tells of each candidate whether the book allows it, and what the search finds.
fn tell<B: Book>(rt: &HostRuntime, book: &B, candidates: &[Candidate]) -> anyhow::Result<()> {
    for candidate in candidates {
        let word = if allows(book, candidate.yes) {
            "allowed"
        } else {
            "not allowed"
        };
        println!(rt; "{}: {word}", candidate.name)?;
    }
    let mut out = [0; MOST_OUTPUT];
    let Ok(n) = print_search(book, ALLOWANCE, &mut out) else {
        return Err(anyhow!("the verdict is too long"));
    };
    rt.stdout().write_all(&out[..n])?;
    Ok(())
}

/// Reads a rule file, and tells of its book.
fn run(rt: &HostRuntime, example: &Example) -> anyhow::Result<()> {
    let file = fs::read(rt, example.path)?;
    let mut storage = Storage::new();
    let Ok(book) = storage.read(file.as_slice()) else {
        return Err(anyhow!("the rule file is refused"));
    };
    println!(rt; "{}", example.path)?;
    tell(rt, &book, example.candidates)
}

fn run_all(rt: &HostRuntime) -> anyhow::Result<()> {
    for example in &[COLOURING, QUEENS, COVER] {
        run(rt, example)?;
    }
    Ok(())
}

fn main(rt: HostRuntime) -> anyhow::Result<()> {
    run_all(&rt)
}
