//! The faults of a rule file, layer inside layer: a scan fault is carried whole in a line fault, that in a fault of the
//! file, which the line is added to.
ghost use Rattle.std.specs.Prelude.{◌≡◌};
ghost use Rattle.refusal.specs.declared.Layer.TheVariants.{File as FileLayer, Line as LineLayer};
ghost use Rattle.rule_file.specs.declared.fault.LineFault.TheVariants.{Scan};
ghost use Rattle.rule_file.specs.declared.fault.Fault.TheVariants.{Line as InLine};
ghost use Rattle.rule_file.specs.Faults.{line_number, file_number, place_in_line, place_of, told_line, told_file};

use refusal::{At, Cause, Layer, Refusal};
use scan::ScanFault;

/// Why the line reader refuses a token.
#[derive(Clone, Copy, PartialEq, Eq, Debug)]
pub enum LineCause {
    /// The token, the line feed or the end is not what the form has there.
    Form,
    /// A choice is zero or above n.
    Choice,
    /// A choice stands again in one count.
    Repeated,
}

/// Why the file layer refuses.
#[derive(Clone, Copy, PartialEq, Eq, Debug)]
pub enum FileCause {
    /// The storage lent is smaller than its full size.
    Storage,
    /// The file has more than 65,535 bytes.
    Bytes,
    /// n, or the number of rules, counts or entries is too large.
    Limit,
    /// There is a rule more than the header says, or too few at the end.
    Rules,
    /// Rules written out have too many bytes for a file, or for the list lent.
    Writing,
}

impl Cause for LineCause {
    ghost numbers = { line_number };

    ghost LAYER = { LineLayer };

    const LAYER: Layer = Layer::Line;

    fn number(self) -> u8 {
        match self {
            LineCause::Form => 13,
            LineCause::Choice => 14,
            LineCause::Repeated => 15,
        }
    }
}

impl Cause for FileCause {
    ghost numbers = { file_number };

    ghost LAYER = { FileLayer };

    const LAYER: Layer = Layer::File;

    fn number(self) -> u8 {
        match self {
            FileCause::Storage => 9,
            FileCause::Bytes => 10,
            FileCause::Limit => 16,
            FileCause::Rules => 17,
            FileCause::Writing => 19,
        }
    }
}

/// A fault of layer line, or a scan fault inside it.
#[derive(Clone, Copy)]
pub enum LineFault {
    Scan(ScanFault),
    Line(At<LineCause>),
}

/// A fault of layer file, or a line fault inside it.
#[derive(Clone, Copy)]
pub enum Fault {
    Line(LineFault),
    File(At<FileCause>),
}

/// A fault of a file with its line: the line feeds before its place, plus 1.
#[derive(Clone, Copy)]
pub struct FileFault {
    pub fault: Fault,
    pub line: usize,
}

impl LineFault {
    /// Where the fault stands, in bytes from the start of the file.
    pub fn place(self) -> usize
        ensures { result ≡ place_in_line self }
    {
        match self {
            LineFault::Scan(fault) => fault.place,
            LineFault::Line(fault) => fault.place,
        }
    }
}

impl Fault {
    /// Where the fault stands, in bytes from the start of the file.
    pub fn place(self) -> usize
        ensures { result ≡ place_of self }
    {
        match self {
            Fault::Line(fault) => fault.place(),
            Fault::File(fault) => fault.place,
        }
    }
}

// No derive writes a `From` that says what it gives, so these are written out.

impl From<ScanFault> for LineFault {
    ghost from_gives = { λ s f. f ≡ Scan s };

    fn from(fault: ScanFault) -> LineFault {
        LineFault::Scan(fault)
    }
}

impl From<LineFault> for Fault {
    ghost from_gives = { λ l f. f ≡ InLine l };

    fn from(fault: LineFault) -> Fault {
        Fault::Line(fault)
    }
}

impl From<(Fault, usize)> for FileFault {
    ghost from_gives = { λ p f. f ≡ record { fault = p.0; line = p.1 } };

    fn from((fault, line): (Fault, usize)) -> FileFault {
        FileFault { fault, line }
    }
}

impl From<LineFault> for Refusal {
    ghost from_gives = { λ f r. r ≡ told_line f };

    fn from(fault: LineFault) -> Refusal {
        match fault {
            LineFault::Scan(fault) => Refusal::from(fault),
            LineFault::Line(fault) => Refusal::from(fault),
        }
    }
}

impl From<FileFault> for Refusal {
    ghost from_gives = { λ f r. r ≡ told_file f };

    fn from(fault: FileFault) -> Refusal {
        match fault.fault {
            Fault::Line(fault) => Refusal::from(fault),
            Fault::File(fault) => Refusal::from(fault),
        }
    }
}
