//! One ban: the check of its members, and what it says of marks.
ghost use Rattle.std.specs.Prelude.{◌≡◌, ◌≤◌, [], length, IfOk};
ghost use Rattle.std.specs.Result.{result_err};
ghost use Rattle.standing.specs.Readings.{ban_reading};
ghost use Rattle.standing.specs.Steps.{member_cause, mark_at, lack};
ghost use Rattle.standing.specs.Table.{ban_fault};

use super::{MAX_MEMBERS, Member, fault, place_of, place_on};
use book::{Answer, Mark, Reading, SheetSize};
use refusal::{JobCause, JobFault};
use std::marker::Model;

/// What a ban holds past its members.
const NO_MEMBER: Member = Member {
    choice: 0,
    answer: Answer::No,
};

/// A ban: the first `count` of its members. It is `Copy`, which an `ArrayVec` is not.
#[derive(Clone, Copy)]
pub struct Ban {
    members: [Member; MAX_MEMBERS],
    count: usize,
}

impl Model for Ban {
    ghost use Rattle.std.specs.Prelude.{List, ◌≡◌, ◌≤◌, length, take};
    ghost use Rattle.standing.specs.declared.Member.{Member};
    ghost use Rattle.std.proofs.Common.{sym};
    ghost use Rattle.standing.specs.Rows.{row_of, counted_back};

    ghost Value = { List Member };

    ghost view = { λ b. take b.count b.members };

    ghost invariant = { λ b. (b.count ≤ 8) × (b.members ≡ row_of (take b.count b.members)) };

    ghost inverse = { λ ms. record { members = row_of ms; count = length ms } };

    ghost inverse_ok = { λ b h i. record { members = sym h.1 i; count = counted_back b.count b.members h.0 h.1 i } };
}

/// A ban of no members: what a place of a table holds that has no ban.
impl Default for Ban {
    ghost is_default = { λ b. b ≡ [] };

    fn default() -> Ban {
        Ban {
            members: [NO_MEMBER; MAX_MEMBERS],
            count: 0,
        }
    }
}

impl Ban {
    /// The members.
    pub fn members(&self) -> &[Member]
        ensures members { result.now ≡ self.now }
        ensures few { length result.now ≤ 8 }
    {
        &self.members[..self.count]
    }

    /// The ban of these members on a sheet of `n` choices: one to eight, each with a choice of the sheet that is above the
    /// choice before.
    pub(super) fn new(n: SheetSize, members: &[Member]) -> Result<Ban, JobFault>
        ensures told { result_err result ≡ ban_fault n.value 0 members.now }
        ensures ban { IfOk result (λ b. b ≡ members.now) }
    {
        if members.is_empty() || members.len() > MAX_MEMBERS {
            return Err(fault(JobCause::MemberCount));
        }
        let mut before = 0;
        for (place, member) in members.iter().enumerate() {
            if let Err(cause) = check_member(n, before, member.choice) {
                return Err(JobFault { cause, place });
            }
            before = member.choice;
        }
        Ok(Ban::of(members))
    }

    /// The ban of these members.
    fn of(members: &[Member]) -> Ban
        requires { length members.now ≤ 8 }
        ensures { result ≡ members.now }
    {
        let mut row = [NO_MEMBER; MAX_MEMBERS];
        row[..members.len()].copy_from_slice(members);
        Ban {
            members: row,
            count: members.len(),
        }
    }

    /// Broken if all members are there; forced if all but one are, and that one's choice is open.
    pub(super) fn reading(&self, marks: &[Mark]) -> Reading
        ensures { result ≡ ban_reading marks.now self.now }
    {
        let members = self.members();
        let mut lacking = members.iter().filter_map(|member| member.lack(marks));
        let Some((member, is_open)) = lacking.next() else {
            return Reading::Broken;
        };
        if is_open && lacking.next().is_none() {
            Reading::Forced(member.choice, !member.answer)
        } else {
            Reading::Quiet
        }
    }
}

/// Checks a member's choice, after a member with the choice `before`. The first member follows choice 0.
fn check_member(n: SheetSize, before: u16, choice: u16) -> Result<(), JobCause>
    ensures { result_err result ≡ member_cause n.value before choice }
{
    place_on(n, choice)?;
    if choice <= before {
        return Err(JobCause::NotRising);
    }
    Ok(())
}

impl Member {
    /// The mark of the member's choice, where that is on the sheet.
    fn mark(self, marks: &[Mark]) -> Option<Mark>
        ensures { result ≡ mark_at marks.now self.choice }
    {
        place_of(marks.len(), self.choice).map(|place| marks[place])
    }

    /// The member, where its choice has not its answer, and whether that choice is open.
    // Both by one look at the mark: readings are the hot loop.
    fn lack(self, marks: &[Mark]) -> Option<(Member, bool)>
        ensures { result ≡ lack marks.now self }
    {
        match self.mark(marks) {
            Some(mark) if mark == self.answer.into() => None,
            mark => Some((self, mark == Some(Mark::Open))),
        }
    }
}
