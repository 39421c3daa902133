//! The line reader: what each token of a file is there for.
ghost use Rattle.std.specs.Prelude.{◌≡◌, true, false, if◌then◌else◌, MatchResult, nat_lt};
ghost use Rattle.rule_file.specs.Reader.{plays, no_choice, none_seen, Admitted, Stepped, LineReads, LineNearer};
ghost use Rattle.rule_file.specs.declared.fault.LineCause.TheVariants.{Choice as ChoiceCause};
ghost use Rattle.rule_file.specs.declared.line.Part.TheVariants.{Member};
ghost use Rattle.rule_file.specs.declared.line.State.TheVariants.{Start};

use super::fault::{LineCause, LineFault};
use book::{MAX_CHOICES, SheetSize};
use refusal::At;
use scan::{Scanner, Token};

/// Which side of a rule is read.
#[derive(Clone, Copy)]
pub enum Half {
    Body,
    Head,
}

/// What the reader has before it.
#[derive(Clone, Copy)]
pub enum State {
    /// The header's line.
    Start,
    /// The header's `p`.
    Header,
    /// n.
    Size,
    /// The number of rules.
    Rules,
    /// The header's line feed.
    HeaderEnd,
    /// A rule's line, or the end of the file.
    Between,
    /// An item, or what ends this half of the rule.
    Items(Half),
    /// A count's lower bound.
    Lower(Half),
    /// A count's upper bound.
    Upper(Half),
    /// A choice of a count, or the count's end.
    Members(Half),
    /// Nothing more.
    Over,
}

/// What a token is there for.
#[derive(Clone, Copy, PartialEq, Eq)]
pub enum Part {
    HeaderLine,
    Header,
    Size(u16),
    Rules(u16),
    HeaderEnd,
    RuleLine,
    /// A choice that is an item.
    Choice(u16),
    CountOpen,
    Lower(u16),
    Upper(u16),
    /// A choice of a count.
    Member(u16),
    CountClose,
    Comma,
    RuleEnd,
    End,
}

/// One flag for each choice that a sheet can have; the first is that of no choice.
const NONE_SEEN: [bool; MAX_CHOICES + 1] = [false; MAX_CHOICES + 1];

/// A reader of lines, by what it has before it.
#[derive(Drop)]
pub struct LineReader {
    state: State,
    /// That of the header. Before it no choice will do, as on a sheet with none.
    size: SheetSize,
    /// Which choices the count that is read has had. A flag for each, since a set would take memory.
    seen: [bool; MAX_CHOICES + 1],
}

impl LineReader {
    pub(super) fn new() -> LineReader
        ensures { (result.state ≡ Start) × ((result.size.value ≡ 0) × (result.seen ≡ none_seen)) }
    {
        LineReader {
            state: State::Start,
            size: SheetSize::zero(),
            seen: NONE_SEEN,
        }
    }

    /// How many choices there are, once the header is read.
    pub(super) fn size(&self) -> SheetSize
        ensures { result ≡ self.now.size }
    {
        self.size
    }

    /// What the next token is there for, with its place.
    pub(super) fn next_part(&mut self, scanner: &mut Scanner) -> Result<(usize, Part), LineFault>
        ensures reads { LineReads self.old scanner.old self.new scanner.new result }
        ensures nearer { LineNearer scanner.old scanner.new result }
    {
        let (place, token) = scanner.next_token()?;
        let part = self
            .step(token)
            .map_err(|cause| LineFault::Line(At { cause, place }))?;
        Ok((place, part))
    }

    /// Takes one token more.
    pub(super) fn step(&mut self, token: Token) -> Result<Part, LineCause>
        ensures { Stepped self.old token self.new result }
    {
        let (part, next) = self.part(token).ok_or(LineCause::Form)?;
        self.admit(part)?;
        self.state = next;
        Ok(part)
    }

    // What the token is there for, and what comes after it.
    fn part(&self, token: Token) -> Option<(Part, State)>
        ensures { result ≡ plays self.now.state token }
    {
        Some(match (self.state, token) {
            (State::Start, Token::Line) => (Part::HeaderLine, State::Header),
            (State::Header, Token::Header) => (Part::Header, State::Size),
            (State::Size, Token::Number(n)) => (Part::Size(n), State::Rules),
            (State::Rules, Token::Number(n)) => (Part::Rules(n), State::HeaderEnd),
            (State::HeaderEnd, Token::Feed) => (Part::HeaderEnd, State::Between),
            (State::Between, Token::Line) => (Part::RuleLine, State::Items(Half::Body)),
            (State::Between, Token::End) => (Part::End, State::Over),
            (State::Items(half), Token::Number(n)) => (Part::Choice(n), State::Items(half)),
            (State::Items(half), Token::Open) => (Part::CountOpen, State::Lower(half)),
            (State::Lower(half), Token::Number(n)) => (Part::Lower(n), State::Upper(half)),
            (State::Upper(half), Token::Number(n)) => (Part::Upper(n), State::Members(half)),
            (State::Members(half), Token::Number(n)) => (Part::Member(n), State::Members(half)),
            (State::Members(half), Token::Close) => (Part::CountClose, State::Items(half)),
            (State::Items(Half::Body), Token::Comma) => (Part::Comma, State::Items(Half::Head)),
            (State::Items(Half::Head), Token::Feed) => (Part::RuleEnd, State::Between),
            _ => return None,
        })
    }

    // Checks the choice of a part that stands where the form has it, and notes what later choices are checked by.
    fn admit(&mut self, part: Part) -> Result<(), LineCause>
        ensures { Admitted self.old part self.new result }
    {
        match part {
            // A size that no sheet has is for the file layer to refuse.
            Part::Size(n) => self.size = SheetSize::new(n).unwrap_or(self.size),
            Part::CountOpen => self.seen = NONE_SEEN,
            Part::Choice(n) => self.check_choice(n)?,
            Part::Member(n) => self.admit_member(n)?,
            _ => {}
        }
        Ok(())
    }

    fn check_choice(&self, n: u16) -> Result<(), LineCause>
        ensures { MatchResult result (λ _. no_choice self.now.size.value n ≡ false) (λ c. (no_choice self.now.size.value n ≡ true) × (c ≡ ChoiceCause)) }
    {
        if n == 0 || n > self.size.get() {
            return Err(LineCause::Choice);
        }
        Ok(())
    }

    fn admit_member(&mut self, n: u16) -> Result<(), LineCause>
        ensures { Admitted self.old (Member n) self.new result }
    {
        self.check_choice(n)?;
        if self.seen[n as usize] {
            return Err(LineCause::Repeated);
        }
        self.seen[n as usize] = true;
        Ok(())
    }
}
