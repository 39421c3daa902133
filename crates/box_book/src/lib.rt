//! The book of a box list: where the names of a sheet may sit. The caller lends the list.
//!
//! Box i of the list, counted from 1, is choice i: yes means that its name sits there. Boxes that overlap, and boxes of one
//! name, exclude each other, and each name sits somewhere.
#![tactic(auto)]

ghost use Rattle.std.specs.Prelude.{◌≡◌, is_ok, Decides, MatchOption, MatchResult};
ghost use Rattle.box_book.specs.Meaning.{overlaps, clashes, Allowed};
ghost use Rattle.box_book.specs.Readings.{boxes_reading};
ghost use Rattle.box_book.specs.Books.{boxes_of, size_of};
ghost use Rattle.box_book.specs.Laws.{box_laws};
ghost use Rattle.refusal.specs.declared.Layer.TheVariants.{Box as BoxLayer};
ghost use Rattle.box_book.specs.Causes.{box_number, NumberFits, EdgesFit, Clean, FirstCause, NoFault, FirstFault, Sound};

use book::{Book, Mark, Reading, Unfit};
use refusal::{At, Cause, Layer};

mod checked;
mod marked;

pub use checked::BoxBook;
use marked::Marked;

/// The kind number of a box book.
pub const BOX_KIND: u16 = 2;

/// The most boxes that a list may have.
pub const BOX_LIMIT: usize = 4096;

/// The largest name number.
pub const NAME_LIMIT: u16 = 512;

/// The largest edge, in tenths of a millimetre.
pub const EDGE_LIMIT: u16 = 20_000;

/// A box that a name may sit in: the name's number, and the edges in tenths of a millimetre.
#[derive(Clone, Copy, PartialEq, Eq, Debug)]
pub struct NameBox {
    pub name: u16,
    pub left: u16,
    pub top: u16,
    pub right: u16,
    pub bottom: u16,
}

/// What a place of a lent list holds before a box is put there. A constant, since arrays are made of it.
pub const NO_BOX: NameBox = NameBox {
    name: 0,
    left: 0,
    top: 0,
    right: 0,
    bottom: 0,
};

/// Why a box list is refused.
#[derive(Clone, Copy, PartialEq, Eq, Debug)]
pub enum BoxCause {
    /// The list has too many boxes.
    TooMany,
    /// The name number is zero or too large.
    Name,
    /// An edge is too large, or left is not below right, or top not below bottom.
    Edge,
    /// The name number is below that of the box before.
    NameFalls,
}

/// A fault of layer box. The place is the box, counted from 0.
pub type BoxFault = At<BoxCause>;

impl Cause for BoxCause {
    ghost numbers = { box_number };

    ghost LAYER = { BoxLayer };

    const LAYER: Layer = Layer::Box;

    fn number(self) -> u8 {
        match self {
            BoxCause::TooMany => 20,
            BoxCause::Name => 21,
            BoxCause::Edge => 22,
            BoxCause::NameFalls => 23,
        }
    }
}

/// Whether a name may have that number.
pub fn name_fits(name: u16) -> bool
    ensures { Decides result (NumberFits name) }
{
    (1..=NAME_LIMIT).contains(&name)
}

impl NameBox {
    /// Whether the boxes overlap. Boxes that share only an edge or a corner do not.
    pub fn overlaps(self, other: NameBox) -> bool
        ensures { result ≡ overlaps self other }
    {
        self.left < other.right
            && other.left < self.right
            && self.top < other.bottom
            && other.top < self.bottom
    }

    /// Whether the boxes exclude each other: they have the same name or overlap.
    pub fn clashes(self, other: NameBox) -> bool
        ensures { result ≡ clashes self other }
    {
        self.name == other.name || self.overlaps(other)
    }

    /// Whether the box may have these edges.
    fn edges_fit(self) -> bool
        ensures { Decides result (EdgesFit self) }
    {
        self.left < self.right
            && self.right <= EDGE_LIMIT
            && self.top < self.bottom
            && self.bottom <= EDGE_LIMIT
    }

    /// What is wrong with the box, where the box before it has that name. The first box follows name 0.
    pub fn fault(self, before: u16) -> Option<BoxCause>
        ensures { MatchOption result (Clean self before) (FirstCause self before) }
    {
        if !name_fits(self.name) {
            Some(BoxCause::Name)
        } else if !self.edges_fit() {
            Some(BoxCause::Edge)
        } else if self.name < before {
            Some(BoxCause::NameFalls)
        } else {
            None
        }
    }
}

/// Whether a box list is sound, or the fault that is told of it.
pub fn check_boxes(boxes: &[NameBox]) -> Result<(), BoxFault>
    ensures told { MatchResult result (λ _. NoFault boxes.now) (FirstFault boxes.now) }
    ensures sound { Decides (is_ok result) (Sound boxes.now) }
{
    if boxes.len() > BOX_LIMIT {
        return Err(BoxFault {
            cause: BoxCause::TooMany,
            place: BOX_LIMIT,
        });
    }
    let mut before = 0;
    for (place, b) in boxes.iter().enumerate() {
        if let Some(cause) = b.fault(before) {
            return Err(BoxFault { cause, place });
        }
        before = b.name;
    }
    Ok(())
}

impl<'a> Book for BoxBook<'a> {
    const KIND: u16 = BOX_KIND;

    ghost kind = { 2 };

    ghost size = { size_of };

    ghost allows = { λ b a. Allowed (boxes_of b) a };

    ghost reads = { λ b ms. boxes_reading (boxes_of b) ms };

    ghost lawful = { λ b. box_laws (boxes_of b) b.sound.few };

    fn kind_number(&self) -> u16 {
        BOX_KIND
    }

    fn choices(&self) -> u16 {
        self.boxes().len() as u16
    }

    fn read(&self, marks: &[Mark]) -> Result<Reading, Unfit> {
        if marks.len() != self.boxes().len() {
            return Err(Unfit);
        }
        let marked = Marked {
            boxes: self.boxes(),
            marks,
        };
        Ok(marked.reading())
    }
}
