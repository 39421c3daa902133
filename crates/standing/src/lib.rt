//! What stands on a job: its pins and its bans, as plain tables.
//!
//! A *pin* orders one choice to have an answer. A *ban* forbids some answers of different choices to come together: its
//! *members*, one to eight, each a choice and an answer, with rising choices. At most 64 bans stand, numbered from 1 in the
//! order in which they were made. Both tables have their full size from the start, so no call on them can run out of memory.
#![tactic(auto)]

ghost use Rattle.std.specs.Prelude.{◌≡◌, ◌-◌, ◌<◌, IfOk};
ghost use Rattle.std.specs.Result.{result_err};
ghost use Rattle.standing.specs.Steps.{place_of, choice_cause};

pub use book::MAX_CHOICES;
use book::{Answer, SheetSize};
use refusal::{JobCause, JobFault};

mod ban;
mod bans;
mod pins;
#[cfg(test)]
mod tests;

pub use ban::Ban;
pub use bans::Bans;
pub use pins::Pins;

/// The most bans that stand.
pub const MAX_BANS: usize = 64;

/// The most members of a ban.
pub const MAX_MEMBERS: usize = 8;

/// One member of a ban: a choice and an answer.
#[derive(Clone, Copy, PartialEq, Eq, Debug)]
pub struct Member {
    pub choice: u16,
    pub answer: Answer,
}

/// The place in a list of so many entries of the one with that number, where there is one. Numbers begin at 1.
fn place_of(count: usize, number: u16) -> Option<usize>
    ensures { result ≡ place_of count number }
{
    let place = usize::from(number.checked_sub(1)?);
    (place < count).then_some(place)
}

/// The place of a choice in a list for a sheet of `n` choices.
// The size comes with each call, since the tables serve sheets of any size.
fn place_on(n: SheetSize, choice: u16) -> Result<usize, JobCause>
    ensures told { result_err result ≡ choice_cause n.value choice }
    ensures place { IfOk result (λ p. (p ≡ choice - 1) × (p < 4096)) }
{
    place_of(usize::from(n.get()), choice).ok_or(JobCause::Choice)
}

/// A fault that has no place within a list.
// Not a `From`: most faults have a place, which a conversion would drop.
fn fault(cause: JobCause) -> JobFault
    ensures { result ≡ record { cause = cause; place = 0 } }
{
    JobFault { cause, place: 0 }
}
