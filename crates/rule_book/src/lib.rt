//! The book of a rule file's rules. The caller lends the storage that they stand in.
//!
//! A rule speaks up once its items, but for one at most, are decided: broken if nothing is left to keep it, forced if one
//! open choice alone can. specs/Readings.antt has the reading in full.
#![tactic(auto)]

ghost use Rattle.std.specs.Prelude.{◌≡◌, ◌+◌, ◌^◌, ◌<◌};
ghost use Rattle.rules.specs.Rules.{choice as choice_item, count as count_item, mark_at, yeses};
ghost use Rattle.rules.specs.Storage.{run, choices as choice_items, side_items, rule_of};
ghost use Rattle.rule_book.specs.Readings.{opens, count_status, first_open, count_pressed, rule_reading, rules_reading};
ghost use Rattle.rule_book.specs.Weighing.{answer_of, pressure_reading, reading_of, weigh, weigh_item};
ghost use Rattle.rule_book.specs.Laws.{rule_laws};
ghost use Rattle.rule_book.specs.Meaning.{rules_of, size_of, Allowed};

use book::{Answer, Book, Mark, Reading, SheetSize, Unfit};
use rules::{CountRow, RuleRow, Side, Span};

/// The kind number of a book of rules.
pub const RULE_KIND: u16 = 1;

/// The book of the rules that the rows mean, on a sheet of that size. Any rows will do: an entry that is no choice of the
/// sheet counts as marked no.
#[derive(Clone, Copy)]
pub struct RuleBook<'a> {
    size: SheetSize,
    rules: &'a [RuleRow],
    counts: &'a [CountRow],
    entries: &'a [u16],
}

/// The side of a rule that an item stands on.
#[derive(Clone, Copy)]
enum Role {
    Body,
    Head,
}

/// Whether an item holds in every arrangement that extends the marks, in none, or that depends.
// Not an `Option<bool>`, whose cases don't say what they mean here.
#[derive(Clone, Copy)]
enum Status {
    Sure,
    Lost,
    Unsure,
}

/// What a rule comes to as far as its items are weighed, while something may still follow.
#[derive(Clone, Copy)]
enum Pressure {
    /// No item is unsure.
    Broken,
    /// A single item is unsure, and comes to this.
    Forced(u16, Answer),
}

/// A count: its bounds and its choices.
#[derive(Drop)]
struct Count<'a> {
    lower: usize,
    upper: usize,
    choices: &'a [u16],
}

/// Of some choices, how many are yes, and how many are open.
#[derive(Clone, Copy)]
struct Tally {
    yes: usize,
    undecided: usize,
    ghost fits: { yes + undecided < 2 ^ 64 },
}

/// By what a side of a rule is weighed. What weighs is inlined, for each side on its own: readings are most of a search.
#[derive(Drop)]
struct Scale<'a> {
    role: Role,
    marks: &'a [Mark],
}

/// The mark of a choice; what is no choice of the sheet counts as no.
// Tests, and no chain of `checked_sub` and `get`: with that, a reading takes a sixth more instructions.
#[inline(always)]
fn mark_at(marks: &[Mark], choice: u16) -> Mark
    ensures { result ≡ mark_at marks.now choice }
{
    if choice == 0 || choice as usize > marks.len() {
        return Mark::No;
    }
    marks[choice as usize - 1]
}

/// What stands in a list over that span, as far as the list goes.
pub fn part<'a, T>(list: &'a [T], span: Span) -> &'a [T]
    ensures { result.now ≡ run span.start span.end list.now }
{
    let end = (span.end as usize).min(list.len());
    let start = (span.start as usize).min(end);
    &list[start..end]
}

impl Role {
    /// The answer by which a choice keeps the rule.
    fn answer(self) -> Answer
        ensures { result ≡ answer_of self }
    {
        match self {
            Role::Body => Answer::No,
            Role::Head => Answer::Yes,
        }
    }
}

impl From<Pressure> for Reading {
    ghost from_gives = { λ p r. r ≡ pressure_reading p };

    fn from(pressure: Pressure) -> Reading {
        match pressure {
            Pressure::Broken => Reading::Broken,
            Pressure::Forced(choice, answer) => Reading::Forced(choice, answer),
        }
    }
}

impl Tally {
    fn of(marks: &[Mark], choices: &[u16]) -> Tally
        ensures yes { result.yes ≡ yeses marks.now choices.now }
        ensures undecided { result.undecided ≡ opens marks.now choices.now }
    {
        // A single pass for both: each look at a mark costs.
        let mut yes = 0;
        let mut undecided = 0;
        for choice in choices {
            match mark_at(marks, *choice) {
                Mark::Yes => yes += 1,
                Mark::Open => undecided += 1,
                Mark::No => {}
            }
        }
        Tally { yes, undecided }
    }

    /// The most of them that may be yes.
    fn most(self) -> usize
        ensures { result ≡ self.yes + self.undecided }
    {
        self.yes + self.undecided
    }
}

impl Count<'_> {
    fn status(&self, tally: Tally) -> Status
        ensures { result ≡ count_status self.now.lower self.now.upper tally.yes tally.undecided }
    {
        if self.lower <= tally.yes && tally.most() <= self.upper {
            Status::Sure
        } else if self.upper < tally.yes || tally.most() < self.lower {
            Status::Lost
        } else {
            Status::Unsure
        }
    }

    /// What follows where the count is the single unsure item of a rule, and stands in its head.
    fn pressed(&self, tally: Tally, marks: &[Mark]) -> Option<Pressure>
        ensures { reading_of result ≡ count_pressed marks.now self.now.choices.now self.now.lower self.now.upper tally.yes tally.undecided }
    {
        if tally.yes == self.upper {
            self.first_open(marks, Answer::No)
        } else if tally.most() == self.lower {
            self.first_open(marks, Answer::Yes)
        } else {
            None
        }
    }

    /// Forces the first open choice, if there is one.
    fn first_open(&self, marks: &[Mark], answer: Answer) -> Option<Pressure>
        ensures { reading_of result ≡ first_open marks.now self.now.choices.now answer }
    {
        self.choices
            .iter()
            .find(|choice| mark_at(marks, **choice).is_open())
            .map(|choice| Pressure::Forced(*choice, answer))
    }
}

// Choices and counts are weighed alike, but by what each comes to: a closure between them would need clauses of its own.
impl Scale<'_> {
    /// What the rule comes to with this choice.
    #[inline(always)]
    fn choice(&self, before: Pressure, choice: u16) -> Option<Pressure>
        ensures { reading_of result ≡ weigh_item self.now.role self.now.marks.now (choice_item choice) (pressure_reading before) }
    {
        match (self.role, mark_at(self.marks, choice), before) {
            (Role::Body, Mark::Yes, _) | (Role::Head, Mark::No, _) => Some(before),
            (_, Mark::Open, Pressure::Broken) => {
                Some(Pressure::Forced(choice, self.role.answer()))
            }
            _ => None,
        }
    }

    /// What it comes to with these choices, each of them an item.
    #[inline(always)]
    fn choices(&self, before: Pressure, choices: &[u16]) -> Option<Pressure>
        ensures { reading_of result ≡ weigh self.now.role self.now.marks.now (choice_items choices.now) (pressure_reading before) }
    {
        choices
            .iter()
            .try_fold(before, |pressure, choice| self.choice(pressure, *choice))
    }

    /// What it comes to with this count.
    #[inline(always)]
    fn count(&self, before: Pressure, count: &Count) -> Option<Pressure>
        ensures { reading_of result ≡ weigh_item self.now.role self.now.marks.now (count_item count.now.lower count.now.upper count.now.choices.now) (pressure_reading before) }
    {
        let tally = Tally::of(self.marks, count.choices);
        match (self.role, count.status(tally), before) {
            (Role::Body, Status::Sure, _) | (Role::Head, Status::Lost, _) => Some(before),
            (Role::Head, Status::Unsure, Pressure::Broken) => count.pressed(tally, self.marks),
            _ => None,
        }
    }
}

impl<'a> RuleBook<'a> {
    /// The book of the rules that the rows mean.
    pub fn new(
        size: SheetSize,
        rules: &'a [RuleRow],
        counts: &'a [CountRow],
        entries: &'a [u16],
    ) -> RuleBook<'a>
        ensures size { result.size ≡ size }
        ensures rules { result.rules.now ≡ rules.now }
        ensures counts { result.counts.now ≡ counts.now }
        ensures entries { result.entries.now ≡ entries.now }
    {
        RuleBook {
            size,
            rules,
            counts,
            entries,
        }
    }

    /// The rows of its rules.
    pub fn rules(&self) -> &'a [RuleRow]
        ensures { result.now ≡ self.now.rules.now }
    {
        self.rules
    }

    /// The rows of its counts.
    pub fn counts(&self) -> &'a [CountRow]
        ensures { result.now ≡ self.now.counts.now }
    {
        self.counts
    }

    /// The entries of its rules.
    pub fn entries(&self) -> &'a [u16]
        ensures { result.now ≡ self.now.entries.now }
    {
        self.entries
    }

    /// What a rule comes to with the items of this side.
    #[inline(always)]
    fn weigh_side(&self, scale: &Scale, side: Side, before: Pressure) -> Option<Pressure>
        ensures { reading_of result ≡ weigh scale.now.role scale.now.marks.now (side_items self.now.counts.now self.now.entries.now side) (pressure_reading before) }
    {
        // A loop, since it carries two things: the pressure, and where the choices before the next count start.
        let mut pressure = before;
        let mut start = side.entries.start;
        for row in part(self.counts, side.counts) {
            let lone = Span {
                start,
                end: row.choices.start,
            };
            pressure = scale.choices(pressure, part(self.entries, lone))?;
            let count = Count {
                lower: row.lower as usize,
                upper: row.upper as usize,
                choices: part(self.entries, row.choices),
            };
            pressure = scale.count(pressure, &count)?;
            start = row.choices.end;
        }
        let rest = Span {
            start,
            end: side.entries.end,
        };
        scale.choices(pressure, part(self.entries, rest))
    }

    /// What a rule comes to: its body is weighed, and then its head.
    #[inline(always)]
    fn weigh_rule(&self, row: RuleRow, marks: &[Mark]) -> Option<Pressure>
        ensures { reading_of result ≡ rule_reading marks.now (rule_of self.now.counts.now self.now.entries.now row) }
    {
        let role = Role::Body;
        let body = self.weigh_side(&Scale { role, marks }, row.body, Pressure::Broken)?;
        let role = Role::Head;
        self.weigh_side(&Scale { role, marks }, row.head, body)
    }

    /// The reading of the first rule that is not quiet.
    fn reading(&self, marks: &[Mark]) -> Reading
        ensures { result ≡ rules_reading marks.now (rules_of self.now) }
    {
        let pressed = self
            .rules
            .iter()
            .find_map(|row| self.weigh_rule(*row, marks));
        pressed.map_or(Reading::Quiet, Reading::from)
    }
}

impl<'a> Book for RuleBook<'a> {
    const KIND: u16 = RULE_KIND;

    ghost kind = { 1 };

    ghost size = { size_of };

    ghost allows = { λ b a. Allowed (size_of b) (rules_of b) a };

    ghost reads = { λ b ms. rules_reading ms (rules_of b) };

    ghost lawful = { λ b. rule_laws (size_of b) (rules_of b) b.size.small };

    fn kind_number(&self) -> u16 {
        RULE_KIND
    }

    fn choices(&self) -> u16 {
        self.size.get()
    }

    fn read(&self, marks: &[Mark]) -> Result<Reading, Unfit> {
        if marks.len() != self.size.get() as usize {
            return Err(Unfit);
        }
        Ok(self.reading(marks))
    }
}

#[cfg(test)]
mod tests;
