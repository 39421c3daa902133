ghost use Rattle.std.specs.Prelude.{◌≡◌, ◌<◌, ◌≤◌, MatchOption};

/// The most choices that a sheet can have.
pub const MAX_CHOICES: usize = 4096;

/// How many choices a sheet has.
#[derive(Clone, Copy)]
pub struct SheetSize {
    value: u16,
    ghost small: { value ≤ 4096 },
}

impl SheetSize {
    /// The size of that many choices, where a sheet can have so many.
    pub fn new(value: u16) -> Option<SheetSize>
        ensures { MatchOption result (4096 < value) (λ s. s.value ≡ value) }
    {
        if value as usize > MAX_CHOICES {
            return None;
        }
        Some(SheetSize { value })
    }

    /// The size of a sheet with no choices.
    // By a name of its own: it is nobody's default.
    pub fn zero() -> SheetSize
        ensures { result.value ≡ 0 }
    {
        SheetSize { value: 0 }
    }

    pub fn get(self) -> u16
        ensures { (result ≡ self.value) × (result ≤ 4096) }
    {
        self.value
    }
}
