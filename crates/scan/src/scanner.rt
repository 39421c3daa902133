ghost use Rattle.std.specs.Prelude.{◌≤◌, length};

mod reading;

/// Where in its line a scanner stands.
#[derive(Clone, Copy, PartialEq, Eq, Debug)]
pub enum Position {
    /// At the start of a line or of the file.
    LineStart,
    /// At the first byte of a line that `Token::Line` was given for.
    FirstByte,
    /// Further on in a line.
    Within,
}

/// A scanner over the bytes of a file.
#[derive(Drop)]
pub struct Scanner<'a> {
    bytes: &'a [u8],
    at: usize,
    position: Position,
    ghost within: { at ≤ length bytes.now },
}
