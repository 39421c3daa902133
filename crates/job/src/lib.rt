//! A job: a book with the pins and bans that an editor has ordered. It is a book again, over the same choices.
#![tactic(auto)]

ghost use Rattle.std.specs.Prelude.{◌≡◌, length, IfOk};
ghost use Rattle.solver.specs.Outcome.{Alike, Means, Searched};
ghost use Rattle.solver.specs.Tree.{TreeLaws};
ghost use Rattle.standing.specs.Rows.{standing_of};
ghost use Rattle.standing.specs.Standing.{nothing, with_pin, without_pin, with_ban, without_ban};
ghost use Rattle.standing.specs.Table.{pin_fault, free_fault, ban_fault, lift_fault};
ghost use Rattle.job.specs.Jobs.{job_of, job_reading, stands, FewTrials, Orders, Permits};
ghost use Rattle.job.specs.JobLaws.{job_laws};

use book::{Answer, Book, Mark, Reading, SheetSize, Unfit};
use refusal::JobFault;
use solver::Verdict;
use standing::{Bans, Member, Pins};

/// The kind number of jobs.
pub const JOB_KIND: u16 = 3;

/// A job over a book of any kind.
#[derive(Drop)]
pub struct Job<B> {
    book: B,
    pins: Pins,
    bans: Bans,
}

impl<B: Book> Job<B> {
    /// A job over the book, with no pins and no bans.
    pub fn new(book: B) -> Job<B>
        ensures { result ≡ job_of book nothing }
    {
        Job {
            book,
            pins: Pins::new(),
            bans: Bans::new(),
        }
    }

    /// The book below.
    pub fn book(&self) -> &B
        ensures { result.now ≡ self.now.book }
    {
        &self.book
    }

    /// The pins that stand.
    pub fn pins(&self) -> &Pins
        ensures { result.now ≡ self.now.pins }
    {
        &self.pins
    }

    /// The bans that stand.
    pub fn bans(&self) -> &Bans
        ensures { result.now ≡ self.now.bans }
    {
        &self.bans
    }

    /// Pins the choice to the answer, whatever pin was there.
    pub fn pin(&mut self, choice: u16, answer: Answer) -> Result<(), JobFault>
        ensures { Orders (pin_fault (B.Book.size self.old.book) choice) (with_pin (stands self.old) choice answer) self.old result self.new }
    {
        let n = self.sheet_size();
        self.pins.pin(n, choice, answer)
    }

    /// Takes the pin from the choice.
    pub fn free(&mut self, choice: u16) -> Result<(), JobFault>
        ensures { Orders (free_fault (B.Book.size self.old.book) (stands self.old).pins choice) (without_pin (stands self.old) choice) self.old result self.new }
    {
        let n = self.sheet_size();
        self.pins.free(n, choice)
    }

    /// Adds a ban of these members, at the end.
    pub fn ban(&mut self, members: &[Member]) -> Result<(), JobFault>
        ensures { Orders (ban_fault (B.Book.size self.old.book) (length (stands self.old).bans) members.now) (with_ban (stands self.old) members.now) self.old result self.new }
    {
        let n = self.sheet_size();
        self.bans.ban(n, members)
    }

    /// Takes the ban of that number away. Later ones move down by one.
    pub fn lift(&mut self, number: u16) -> Result<(), JobFault>
        ensures { Orders (lift_fault (length (stands self.old).bans) number) (without_ban (stands self.old) number) self.old result self.new }
    {
        self.bans.lift(number)
    }

    /// Replaces all pins and bans.
    pub fn restore(&mut self, pins: Pins, bans: Bans)
        ensures { self.new ≡ job_of self.old.book (standing_of pins bans) }
    {
        self.pins = pins;
        self.bans = bans;
    }

    /// Looks for the first arrangement that the book, the pins and the bans allow, in at most `allowance` trials. Both lists are
    /// to be n long, whatever they hold.
    ///
    /// `few` tells how many trials there can be, by the choices that are not pinned; the other clauses are those of a search of
    /// the job as a book.
    #[tactic(auto, using(crate::proofs::Trials::searched_few))]
    pub fn search(
        &self,
        allowance: u64,
        marks: &mut [Mark],
        work: &mut [u16],
    ) -> Result<Verdict, JobFault>
        ensures does { Searched (B.Book.size self.now.book) (job_reading (stands self.now) (B.Book.reads self.now.book)) allowance marks.old work.old marks.new work.new result }
        ensures truth { IfOk result (λ v. Means (Permits (B.Book.allows self.now.book) (stands self.now)) v.ending marks.new) }
        ensures few { IfOk result (λ v. FewTrials (B.Book.size self.now.book) (stands self.now) allowance v) }
        ensures alike { Alike (B.Book.size self.now.book) (job_reading (stands self.now) (B.Book.reads self.now.book)) }
        ensures tree { TreeLaws (B.Book.size self.now.book) (Permits (B.Book.allows self.now.book) (stands self.now)) (job_reading (stands self.now) (B.Book.reads self.now.book)) }
    {
        solver::search(self, allowance, marks, work)
    }

    /// How many choices there are. No book has more than a sheet can have.
    fn sheet_size(&self) -> SheetSize
        ensures { result.value ≡ B.Book.size self.now.book }
    {
        SheetSize::new(self.choices()).unwrap()
    }
}

/// The pins are asked first, where they are quiet the bans, and where those are quiet the book below.
impl<B: Book> Book for Job<B> {
    const KIND: u16 = JOB_KIND;

    ghost kind = { 3 };

    ghost size = { λ j. B.Book.size j.book };

    ghost allows = { λ j. Permits (B.Book.allows j.book) (stands j) };

    ghost reads = { λ j. job_reading (stands j) (B.Book.reads j.book) };

    ghost lawful = { λ j. job_laws _ _ _ (B.Book.lawful j.book) _ };

    fn kind_number(&self) -> u16 {
        JOB_KIND
    }

    fn choices(&self) -> u16 {
        self.book.choices()
    }

    fn read(&self, marks: &[Mark]) -> Result<Reading, Unfit> {
        if marks.len() != self.choices() as usize {
            return Err(Unfit);
        }
        let by_pin = self.pins.reading(marks).loud();
        let ordered = by_pin.or_else(|| self.bans.reading(marks).loud());
        match ordered {
            Some(reading) => Ok(reading),
            None => self.book.read(marks),
        }
    }
}
