//! The bans that stand.
ghost use Rattle.std.specs.Prelude.{◌≡◌, ◌≤◌, [], ◌∷◌, ◌++◌, length};
ghost use Rattle.standing.specs.Readings.{bans_reading};
ghost use Rattle.standing.specs.Standing.{lifted};
ghost use Rattle.standing.specs.Table.{Does, ban_fault, lift_fault};

use super::ban::Ban;
use super::{MAX_BANS, Member, fault, place_of};
use arrayvec::ArrayVec;
use book::{Mark, Reading, SheetSize};
use refusal::{JobCause, JobFault};
use std::marker::Model;

/// The bans of a job.
#[derive(Drop)]
pub struct Bans {
    rows: ArrayVec<Ban, MAX_BANS>,
}

impl Model for Bans {
    ghost use Rattle.std.specs.Prelude.{List, ◌≤◌, length};
    ghost use Rattle.standing.specs.declared.Member.{Member};

    ghost Value = { List (List Member) };

    ghost view = { λ b. b.rows.items };

    ghost invariant = { λ b. length b.rows.items ≤ 64 };
}

impl Bans {
    /// No bans.
    pub fn new() -> Bans
        ensures { result ≡ [] }
    {
        Bans {
            rows: ArrayVec::new(),
        }
    }

    /// The bans that stand, in order.
    pub fn rows(&self) -> &[Ban]
        ensures bans { result.now ≡ self.now }
        ensures few { length result.now ≤ 64 }
    {
        self.rows.as_slice()
    }

    /// How many bans stand.
    pub fn len(&self) -> usize
        ensures len { result ≡ length self.now }
        ensures few { result ≤ 64 }
    {
        self.rows.len()
    }

    /// Adds a ban on a sheet of `n` choices, at the end.
    #[tactic(auto, using(crate::proofs::Members::room_last, crate::proofs::Rows::unchanged))]
    pub fn ban(&mut self, n: SheetSize, members: &[Member]) -> Result<(), JobFault>
        ensures { Does (ban_fault n.value (length self.old) members.now) self.old (self.old ++ (members.now ∷ [])) result self.new }
    {
        let ban = Ban::new(n, members)?;
        self.rows
            .try_push(ban)
            .map_err(|_| fault(JobCause::BansFull))
    }

    /// Takes the ban of that number away. Later ones move down by one.
    pub fn lift(&mut self, number: u16) -> Result<(), JobFault>
        ensures { Does (lift_fault (length self.old) number) self.old (lifted number self.old) result self.new }
    {
        let place = place_of(self.len(), number).ok_or(fault(JobCause::NoSuchBan))?;
        self.rows.remove(place);
        Ok(())
    }

    /// What the first ban, in order, that has something to say says of some marks. A ban with all its members there is
    /// broken; one with all but one there, whose choice is open, forces the other answer on that choice.
    pub fn reading(&self, marks: &[Mark]) -> Reading
        ensures { result ≡ bans_reading self.now marks.now }
    {
        self.rows()
            .iter()
            .find_map(|ban| ban.reading(marks).loud())
            .unwrap_or(Reading::Quiet)
    }
}
