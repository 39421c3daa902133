ghost use Rattle.std.specs.Prelude.{◌≡◌};
ghost use Rattle.box_text.specs.Cells.{past_spaces, cell_number};

/// The number of a cell: digits, with spaces around them or none, of a value up to 65,535. Any other cell has none.
pub fn cell_number(cell: &[u8]) -> Option<u16>
    ensures { result ≡ cell_number cell.now }
{
    let mut rest = past_spaces(cell);
    if !rest.first()?.is_ascii_digit() {
        return None;
    }
    let mut value: u16 = 0;
    while let [digit @ b'0'..=b'9', after @ ..] = rest {
        value = value
            .checked_mul(10)?
            .checked_add(u16::from(*digit - b'0'))?;
        rest = after;
    }
    past_spaces(rest).is_empty().then_some(value)
}

// What stands after the spaces at the start.
fn past_spaces(bytes: &[u8]) -> &[u8]
    ensures { result.now ≡ past_spaces bytes.now }
{
    let mut rest = bytes;
    while let [b' ', after @ ..] = rest {
        rest = after;
    }
    rest
}
