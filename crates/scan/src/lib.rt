//! The bytes of a rule file as tokens.
//!
//! Every line, the last too, ends with a line feed. A line whose first byte is `c` is a comment and gives no token. Any
//! other line gives `Line` at its first byte and then its tokens: numbers, which are runs of digits, `{`, `}`, commas, `p`,
//! and its line feed. Spaces separate. Any other byte is refused, a `c` further on in a line too, and so is a number above
//! 65,535, at its first digit. The file ends with `End` where a line would start, and with `Cut` inside a line.
//!
//! specs/Text.antt has this as a grammar, and specs/Scans.antt what the scanner answers.
#![tactic(auto)]

ghost use Rattle.std.specs.Prelude.{◌≡◌};
ghost use Rattle.refusal.specs.declared.Layer.TheVariants.{Scan as ScanLayer};
ghost use Rattle.scan.specs.Bytes.{kind};
ghost use Rattle.scan.specs.Causes.{scan_number};

mod scanner;

use refusal::{At, Cause, Layer};
pub use scanner::Scanner;

/// What a byte is to the scanner.
#[derive(Clone, Copy, PartialEq, Eq, Debug)]
pub enum ByteKind {
    Digit,
    Space,
    Feed,
    Open,
    Close,
    Comma,
    /// `p`, which opens the header.
    Header,
    /// `c`, which opens a comment.
    Comment,
    Other,
}

/// A token of a rule file.
#[derive(Clone, Copy, PartialEq, Eq, Debug)]
pub enum Token {
    /// The start of a line that is no comment.
    Line,
    /// The end of the file, after the last line feed.
    End,
    Number(u16),
    /// `{`
    Open,
    /// `}`
    Close,
    Comma,
    /// A `p` that is its line's first byte.
    Header,
    /// A `p` elsewhere.
    Stray,
    Feed,
    /// The end of the file inside a line.
    Cut,
}

/// Why the scanner refuses.
#[derive(Clone, Copy, PartialEq, Eq, Debug)]
pub enum ScanCause {
    /// A byte outside comments that is no digit, space, `{`, `}`, comma, `p` or line feed.
    UnknownByte,
    /// A number above 65,535.
    NumberTooLarge,
}

/// A fault of layer scan.
pub type ScanFault = At<ScanCause>;

impl Cause for ScanCause {
    ghost numbers = { scan_number };

    ghost LAYER = { ScanLayer };

    const LAYER: Layer = Layer::Scan;

    fn number(self) -> u8 {
        match self {
            ScanCause::UnknownByte => 11,
            ScanCause::NumberTooLarge => 12,
        }
    }
}

/// What the byte is.
pub fn kind_of(b: u8) -> ByteKind
    ensures { result ≡ kind b }
{
    match b {
        b'0'..=b'9' => ByteKind::Digit,
        b' ' => ByteKind::Space,
        b'\n' => ByteKind::Feed,
        b'{' => ByteKind::Open,
        b'}' => ByteKind::Close,
        b',' => ByteKind::Comma,
        b'p' => ByteKind::Header,
        b'c' => ByteKind::Comment,
        _ => ByteKind::Other,
    }
}
