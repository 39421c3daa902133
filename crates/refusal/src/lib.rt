//! Refusals as they are told: cause, place and layer; what every kind of cause has; and the causes of the layer that several
//! crates share.
#![tactic(auto)]

ghost use Rattle.std.specs.Prelude.{◌≡◌, ℕ, Some};
ghost use Rattle.refusal.specs.declared.Layer.{Layer as LayerOf};
ghost use Rattle.refusal.specs.declared.Layer.TheVariants.{Job as JobLayer};
ghost use Rattle.refusal.specs.Causes.{layer_name, job_number, told, telling};

use std::fmt;

/// The part of the program that refuses.
#[derive(Clone, Copy, PartialEq, Eq, Debug)]
pub enum Layer {
    File,
    Scan,
    Line,
    Box,
    Job,
    Record,
}

/// A refusal as the user is told it: the number of its cause, the place counted from 0, the layer.
#[derive(Clone, Copy, PartialEq, Eq, Debug)]
pub struct Refusal {
    pub number: u8,
    pub place: usize,
    pub layer: Layer,
}

impl fmt::Display for Layer {
    ghost output = { λ l. Some (layer_name l) };

    fn fmt<W: fmt::Write>(&self, f: &mut fmt::Formatter<W>) -> fmt::Result {
        f.write_str(match self {
            Layer::File => "file",
            Layer::Scan => "scan",
            Layer::Line => "line",
            Layer::Box => "box",
            Layer::Job => "job",
            Layer::Record => "record",
        })
    }
}

impl fmt::Display for Refusal {
    ghost output = { λ r. Some (telling r) };

    fn fmt<W: fmt::Write>(&self, f: &mut fmt::Formatter<W>) -> fmt::Result {
        let Refusal {
            number,
            place,
            layer,
        } = *self;
        write!(f, "refused {number} at {place} layer {layer}")
    }
}

/// A kind of cause: that of one layer.
pub trait Cause {
    /// The number of each cause.
    ghost numbers: { Self → ℕ };

    /// The layer that refuses for these causes.
    ghost LAYER: { LayerOf };

    /// That layer.
    const LAYER: Layer;

    /// The number by which the table of refusals knows the cause.
    fn number(self) -> u8
        ensures { result ≡ numbers self };
}

/// A cause, and the place where it was met.
#[derive(Clone, Copy, PartialEq, Eq, Debug)]
pub struct At<C> {
    pub cause: C,
    pub place: usize,
}

impl<C: Cause> From<At<C>> for Refusal {
    ghost from_gives = { λ f r. r ≡ told C.numbers C.LAYER f };

    fn from(fault: At<C>) -> Refusal {
        Refusal {
            number: fault.cause.number(),
            place: fault.place,
            layer: C::LAYER,
        }
    }
}

/// Why a call on a job, on its lists or on its printed output is refused.
#[derive(Clone, Copy, PartialEq, Eq, Debug)]
pub enum JobCause {
    /// A choice is zero or above n.
    Choice,
    /// The choice to be freed is not pinned.
    NotPinned,
    /// A ban has not one to eight members.
    MemberCount,
    /// A choice of a ban is not above the one before it.
    NotRising,
    /// Sixty-four bans stand already.
    BansFull,
    /// No ban has that number.
    NoSuchBan,
    /// A list lent to a search is not n long.
    ListLength,
    /// A list to be written into is too short.
    ListTooShort,
}

/// A fault of layer job.
pub type JobFault = At<JobCause>;

impl Cause for JobCause {
    ghost numbers = { job_number };

    ghost LAYER = { JobLayer };

    const LAYER: Layer = Layer::Job;

    fn number(self) -> u8 {
        match self {
            JobCause::Choice => 30,
            JobCause::NotPinned => 31,
            JobCause::MemberCount => 32,
            JobCause::NotRising => 33,
            JobCause::BansFull => 34,
            JobCause::NoSuchBan => 35,
            JobCause::ListLength => 36,
            JobCause::ListTooShort => 37,
        }
    }
}
