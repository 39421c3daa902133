ghost use Rattle.std.specs.Prelude.{◌≡◌, [], MatchResult};
ghost use Rattle.box_book.specs.Causes.{Sound, FirstFault};

use super::{BoxFault, NameBox, check_boxes};

/// The book of a box list, which is sound.
#[derive(Clone, Copy)]
pub struct BoxBook<'a> {
    boxes: &'a [NameBox],
    ghost sound: { Sound boxes.now },
}

/// The book of a sound list, or the fault that is told of the list.
impl<'a> TryFrom<&'a [NameBox]> for BoxBook<'a> {
    type Error = BoxFault;

    ghost try_from_gives = { λ boxes r. MatchResult r (λ b. b.boxes.now ≡ boxes.now) (FirstFault boxes.now) };

    fn try_from(boxes: &'a [NameBox]) -> Result<BoxBook<'a>, BoxFault> {
        check_boxes(boxes)?;
        Ok(BoxBook { boxes })
    }
}

impl<'a> BoxBook<'a> {
    /// The book of these boxes. A list that is not sound, of which `check_boxes` tells the fault, gives the book of no boxes.
    pub fn of(boxes: &'a [NameBox]) -> BoxBook<'a>
        ensures sound { Sound boxes.now → result.boxes.now ≡ boxes.now }
        ensures unsound { (Sound boxes.now → ⊥) → result.boxes.now ≡ [] }
    {
        if check_boxes(boxes).is_ok() {
            BoxBook { boxes }
        } else {
            BoxBook { boxes: &[] }
        }
    }

    /// Its boxes.
    pub fn boxes(&self) -> &'a [NameBox]
        ensures boxes { result.now ≡ self.now.boxes.now }
        ensures sound { Sound result.now }
    {
        self.boxes
    }
}
