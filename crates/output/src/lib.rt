//! Texts written into bytes that the caller lends, piece after piece.
//!
//! Over no bytes at all a text is only measured. So it is first measured, and then written where it fits.
#![tactic(auto)]

ghost use Rattle.std.specs.Prelude.{◌≡◌, ℕ, ◌^◌, ◌<◌, List, ◌++◌, decimal};
ghost use Rattle.std.specs.Option.{OnSome};
ghost use Rattle.output.specs.Writing.{Wrote, Unwritten, within, WroteWhole};

use itoa::Buffer;

/// A text that is written piece after piece.
// Not std's Display: its contract doesn't say when a writing fails, so that a text that has room could be refused.
pub trait Text {
    ghost bytes: { Self → List ℕ };

    // What writing the text shows of it, as how large its numbers are.
    ghost known: { Self → Type 0 } = { λ _. Unit {0} };

    /// Writes as much of the text as there is room for at a place, and answers the place after the whole text, or None
    /// where no place has so large a number.
    fn put(&self, out: &mut [u8], at: usize) -> Option<usize>
        ensures text { Wrote out.old at (bytes self.now) out.new result }
        ensures known { OnSome result (known self.now) };
}

/// Writes bytes as texts are written.
#[inline]
pub fn put(out: &mut [u8], at: usize, text: &[u8]) -> Option<usize>
    ensures text { Wrote out.old at text.now out.new result }
    ensures refused { Unwritten out.old out.new result }
{
    let end = at.checked_add(text.len())?;
    if end <= out.len() {
        out[at..end].copy_from_slice(text);
    } else if at < out.len() {
        let room = out.len() - at;
        out[at..].copy_from_slice(&text[..room]);
    }
    Some(end)
}

/// Writes the decimal digits of a number, in the same way.
// Most numbers have one or two digits, so these are laid without a buffer, and inlined.
#[inline]
pub fn put_number(out: &mut [u8], at: usize, number: u64) -> Option<usize>
    ensures text { Wrote out.old at (decimal number) out.new result }
    ensures refused { Unwritten out.old out.new result }
{
    if number < 10 {
        return put(out, at, &[b'0' + number as u8]);
    }
    if number < 100 {
        let digits = [b'0' + (number / 10) as u8, b'0' + (number % 10) as u8];
        return put(out, at, &digits);
    }
    put_long(out, at, number)
}

/// Writes the decimal digits of a number of any length.
#[inline(never)]
fn put_long(out: &mut [u8], at: usize, number: u64) -> Option<usize>
    ensures text { Wrote out.old at (decimal number) out.new result }
    ensures refused { Unwritten out.old out.new result }
{
    put(out, at, Buffer::new().format(number).as_bytes())
}

/// Whether a text that was measured so has room in that many bytes.
pub fn has_room(measured: Option<usize>, room: usize) -> bool
    ensures { result ≡ within measured room }
{
    measured.is_some_and(|length| length <= room)
}

/// Writes a whole text where it has at most that many bytes and fits the list, and answers its length. Where not, the list
/// stays as it was.
pub fn write_whole<T: Text>(text: &T, most: usize, out: &mut [u8]) -> Option<usize>
    ensures written { WroteWhole (T.bytes text.now) most out.old out.new result }
    ensures known { OnSome result (T.known text.now) }
{
    if !has_room(text.put(&mut [], 0), most.min(out.len())) {
        return None;
    }
    text.put(out, 0)
}

impl<'a> Text for &'a str {
    ghost bytes = { λ text. text.now };

    fn put(&self, out: &mut [u8], at: usize) -> Option<usize> {
        put(out, at, self.as_bytes())
    }
}

// A number in decimal. Whoever writes a narrower one widens it.
impl Text for u64 {
    ghost bytes = { decimal };

    ghost known = { λ number. number < 2 ^ 64 };

    fn put(&self, out: &mut [u8], at: usize) -> Option<usize> {
        put_number(out, at, *self)
    }
}

// Texts one after another. One impl for each length, since no impl is over all of them.
impl<A: Text, B: Text> Text for (A, B) {
    ghost bytes = { λ parts. A.bytes parts.0 ++ B.bytes parts.1 };

    ghost known = { λ parts. A.known parts.0 × B.known parts.1 };

    fn put(&self, out: &mut [u8], at: usize) -> Option<usize> {
        let at = self.0.put(out, at)?;
        self.1.put(out, at)
    }
}

impl<A: Text, B: Text, C: Text> Text for (A, B, C) {
    ghost bytes = { λ parts. A.bytes parts.0 ++ (B.bytes parts.1 ++ C.bytes parts.2) };

    ghost known = { λ parts. A.known parts.0 × B.known parts.1 × C.known parts.2 };

    fn put(&self, out: &mut [u8], at: usize) -> Option<usize> {
        let at = self.0.put(out, at)?;
        let at = self.1.put(out, at)?;
        self.2.put(out, at)
    }
}

impl<A: Text, B: Text, C: Text, D: Text> Text for (A, B, C, D) {
    ghost bytes = { λ parts. A.bytes parts.0 ++ (B.bytes parts.1 ++ (C.bytes parts.2 ++ D.bytes parts.3)) };

    ghost known = { λ parts. A.known parts.0 × B.known parts.1 × C.known parts.2 × D.known parts.3 };

    fn put(&self, out: &mut [u8], at: usize) -> Option<usize> {
        let at = self.0.put(out, at)?;
        let at = self.1.put(out, at)?;
        let at = self.2.put(out, at)?;
        self.3.put(out, at)
    }
}
