ghost use Rattle.std.specs.Prelude.{◌≡◌, ◌+◌, ◌^◌, ◌<◌, length};

mod taking;

/// A reader of the rows of a text, one after another.
#[derive(Drop)]
pub struct RowReader<'a> {
    // The bytes after the rows that were taken.
    rest: &'a [u8],
    // How many rows were taken.
    number: usize,
    ghost fits: { number + length rest.now < 2 ^ 63 },
}

impl RowReader<'_> {
    /// The number in the file, from 1, of the row that was read last: how many rows were gone over, a heading included.
    pub fn row_number(&self) -> usize
        ensures { result ≡ self.now.number }
    {
        self.number
    }
}
