//! Rules in storage that the caller lends: rows of rules, rows of counts, and entries.
//!
//! A rule has body items, then head items; an item is a choice, or a *count*: choices with a lower and an upper bound.
//! The entries are the choices of all rules in the order of the file, be they items themselves or choices of a count.
//! What the rows mean is `decode` of specs/Storage.antt.
#![tactic(auto)]

/// A run of a list, from `start` up to `end`, which it leaves out.
#[derive(Clone, Copy, PartialEq, Eq, Debug, Default)]
pub struct Span {
    pub start: u16,
    pub end: u16,
}

/// A count: its bounds, and which entries are its choices.
#[derive(Clone, Copy, PartialEq, Eq, Debug, Default)]
pub struct CountRow {
    pub lower: u16,
    pub upper: u16,
    pub choices: Span,
}

/// One side of a rule: its entries, and the counts that some of them belong to.
#[derive(Clone, Copy, PartialEq, Eq, Debug, Default)]
pub struct Side {
    pub entries: Span,
    pub counts: Span,
}

/// A rule: its body and its head.
#[derive(Clone, Copy, PartialEq, Eq, Debug, Default)]
pub struct RuleRow {
    pub body: Side,
    pub head: Side,
}

/// The most rules, counts and entries that a rule file may have, and so the full sizes of the storage.
pub const MAX_RULES: usize = 2048;

pub const MAX_COUNTS: usize = 1024;

pub const MAX_ENTRIES: usize = 16384;

/// Rows of nothing, which are also the defaults: what storage may hold before it is filled.
pub const NO_SPAN: Span = Span { start: 0, end: 0 };

pub const NO_SIDE: Side = Side {
    entries: NO_SPAN,
    counts: NO_SPAN,
};

pub const NO_RULE: RuleRow = RuleRow {
    body: NO_SIDE,
    head: NO_SIDE,
};

pub const NO_COUNT: CountRow = CountRow {
    lower: 0,
    upper: 0,
    choices: NO_SPAN,
};
