//! The trail of a search, kept in the work list: an entry for each mark that is not open.
ghost use Rattle.std.specs.Prelude.{◌≡◌, ◌+◌, ◌^◌, ◌<◌, ◌≤◌, true, false, ◌∷◌, length, slice_set};
ghost use Rattle.solver.specs.Steps.{entry_of, step_of, place_of, Held, Unwinds};

use book::Mark;

/// One step of the trail: a choice, and whether it is a trial that is not yet turned.
#[derive(Clone, Copy)]
pub(crate) struct Step {
    pub(crate) choice: u16,
    pub(crate) trial: bool,
}

impl Step {
    /// A step that is not to be turned.
    pub(crate) fn forced(choice: u16) -> Step
        ensures { result ≡ record { choice = choice; trial = false } }
    {
        Step {
            choice,
            trial: false,
        }
    }

    /// A trial.
    pub(crate) fn trial(choice: u16) -> Step
        ensures { result ≡ record { choice = choice; trial = true } }
    {
        Step {
            choice,
            trial: true,
        }
    }

    /// The place of the choice in a list of marks.
    fn place(self) -> usize
        requires { 0 < self.choice }
        ensures { result ≡ place_of self }
    {
        self.choice as usize - 1
    }
}

impl From<u16> for Step {
    ghost from_gives = { λ w s. s ≡ step_of w };

    fn from(entry: u16) -> Step {
        Step {
            choice: entry / 2,
            trial: entry % 2 == 1,
        }
    }
}

// The choice is bounded here and by no ghost field, which every step that the specs name would have to show.
impl From<Step> for u16 {
    ghost from_gives = { λ s w. s.choice < 2 ^ 15 → w ≡ entry_of s };

    fn from(step: Step) -> u16 {
        step.choice
            .wrapping_mul(2)
            .wrapping_add(u16::from(step.trial))
    }
}

/// The marks of a search, and the trail of the steps that made them: the work list has an entry for each mark that is not open.
///
/// That the steps are those of the marks (`Held`) is no ghost field: it fails between the two writes of a method.
#[derive(Drop)]
pub(crate) struct Trail<'a> {
    marks: &'a mut [Mark],
    work: &'a mut [u16],
    depth: usize,
    ghost small: { length marks.now ≤ 4096 },
    ghost long: { length work.now ≡ length marks.now },
}

impl<'a> Trail<'a> {
    ghost use Rattle.solver.specs.Trails.{steps_of, SameLists, Popped};

    /// An empty trail, over open marks.
    pub(crate) fn new(marks: &'a mut [Mark], work: &'a mut [u16]) -> Trail<'a>
        requires { (length marks.old ≤ 4096) × (length work.old ≡ length marks.old) }
        ensures marks { (result.marks.ghost_name ≡ marks.entry.ghost_name) × (result.marks.now ≡ marks.old) }
        ensures work { (result.work.ghost_name ≡ work.entry.ghost_name) × (result.work.now ≡ work.old) }
        ensures empty { result.depth ≡ 0 }
    {
        Trail {
            marks,
            work,
            depth: 0,
        }
    }

    /// The marks as they stand.
    pub(crate) fn marks(&self) -> &[Mark]
        ensures { result.now ≡ self.now.marks.now }
    {
        &*self.marks
    }

    /// Marks the choice of a step.
    // Here and below `same` says that the lists are still the two that were lent, to which what is written goes back.
    pub(crate) fn push(&mut self, step: Step, mark: Mark)
        requires { (0 < step.choice) × (step.choice ≤ length self.old.marks.now) × (self.old.depth < length self.old.marks.now) }
        ensures same { SameLists self.old self.new }
        ensures marked { self.new.marks.now ≡ slice_set self.old.marks.now (place_of step) mark }
        ensures noted { steps_of self.new ≡ step ∷ steps_of self.old }
        ensures deeper { self.new.depth ≡ self.old.depth + 1 }
    {
        self.marks[step.place()] = mark;
        self.work[self.depth] = u16::from(step);
        self.depth += 1;
    }

    /// Takes the latest step back: its choice is open again.
    fn pop(&mut self) -> Option<Step>
        requires { Held (steps_of self.old) self.old.marks.now }
        ensures same { SameLists self.old self.new }
        ensures popped { Popped self.old self.new result }
    {
        self.depth = self.depth.checked_sub(1)?;
        let step = Step::from(self.work[self.depth]);
        self.marks[step.place()] = Mark::Open;
        Some(step)
    }

    /// Takes the trail back to its latest trial that is not yet turned, and turns that. Whether there is such a trial.
    pub(crate) fn turn(&mut self) -> bool
        requires { Held (steps_of self.old) self.old.marks.now }
        ensures same { SameLists self.old self.new }
        ensures turned { Unwinds (steps_of self.old) self.old.marks.now self.new.marks.now (steps_of self.new) result }
    {
        while let Some(step) = self.pop() {
            if step.trial {
                self.push(Step::forced(step.choice), Mark::No);
                return true;
            }
        }
        false
    }
}
