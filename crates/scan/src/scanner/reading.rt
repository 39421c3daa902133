ghost use Rattle.std.specs.Prelude.{◌≡◌, ◌<◌, ◌≤◌, ◌==◌, cond, MatchOption, take, drop, length};
ghost use Rattle.std.specs.List.{position, prefix_len};
ghost use Rattle.scan.specs.declared.scanner.Position.TheVariants.{LineStart, Within};
ghost use Rattle.scan.specs.Bytes.{digit, file_words};
ghost use Rattle.scan.specs.Scans.{ahead, Answers, Falls, LineFirst, WordFirst, NoSpaceFirst, is_first, single_token};
ghost use Rattle.scan.specs.Text.{value, EveryFileReads, FilesReadOnce};

use super::super::{ByteKind, ScanCause, ScanFault, Token, kind_of};
use super::{Position, Scanner};

impl<'a> Scanner<'a> {
    /// A scanner at the start of the file.
    pub fn new(bytes: &'a [u8]) -> Scanner<'a>
        ensures fresh { (result.bytes.now ≡ bytes.now) × ((result.at ≡ 0) × (result.position ≡ LineStart)) }
        ensures whole { ahead result ≡ file_words bytes.now }
        ensures reads { EveryFileReads }
        ensures once { FilesReadOnce }
    {
        Scanner {
            bytes,
            at: 0,
            position: Position::LineStart,
        }
    }

    /// The next token, with its place. Nothing is said of what follows a refusal, `End` or `Cut`.
    pub fn next_token(&mut self) -> Result<(usize, Token), ScanFault>
        ensures answers { Answers self.old self.new result }
        ensures same { self.new.bytes ≡ self.old.bytes }
        ensures falls { Falls self.old self.new result }
    {
        let rest = self.rest();
        if self.position == Position::LineStart {
            let (comments, token) = line_start(rest);
            self.at += comments;
            if let Token::Line = token {
                self.position = Position::FirstByte;
            }
            return Ok((self.at, token));
        }
        let (spaces, position) = past_spaces(rest, self.position);
        let place = self.at + spaces;
        let found = word(&rest[spaces..], position);
        self.at = place + found.length;
        self.position = found.next;
        match found.token {
            Ok(token) => Ok((place, token)),
            Err(cause) => Err(ScanFault { cause, place }),
        }
    }

    // The bytes that are not taken yet.
    fn rest(&self) -> &'a [u8]
        ensures { result.now ≡ drop self.now.at self.now.bytes.now }
    {
        &self.bytes[self.at..]
    }
}

/// A token at the first of some bytes, or why it is refused, how many of them it takes, and the position after them.
#[derive(Clone, Copy)]
struct Found {
    token: Result<Token, ScanCause>,
    length: usize,
    next: Position,
}

// How many bytes of comments stand first in a line or more, and the token that the next line begins with.
fn line_start(bytes: &[u8]) -> (usize, Token)
    ensures { LineFirst bytes.now result }
{
    let mut rest = bytes;
    while let Some(first) = rest.first() {
        let ByteKind::Comment = kind_of(*first) else {
            return (bytes.len() - rest.len(), Token::Line);
        };
        let Some(feed) = first_feed(rest) else {
            return (bytes.len(), Token::Cut);
        };
        rest = &rest[feed + 1..];
    }
    (bytes.len(), Token::End)
}

fn first_feed(bytes: &[u8]) -> Option<usize>
    ensures { result ≡ position (λ b. b == 10) bytes.now }
{
    bytes.iter().position(|b| *b == b'\n')
}

// How many spaces stand first, and the position after them.
fn past_spaces(bytes: &[u8], position: Position) -> (usize, Position)
    ensures longest { result.0 ≡ prefix_len (λ b. b == 32) bytes.now }
    ensures within { result.0 ≤ length bytes.now }
    ensures next { result.1 ≡ cond (result.0 == 0) position Within }
{
    let [b' ', after @ ..] = bytes else {
        return (0, position);
    };
    (1 + spaces(after), Position::Within)
}

// How many spaces stand first.
fn spaces(bytes: &[u8]) -> usize
    ensures longest { result ≡ prefix_len (λ b. b == 32) bytes.now }
    ensures within { result ≤ length bytes.now }
{
    bytes.iter().take_while(|b| **b == b' ').count()
}

// Whether a byte is its line's first.
fn is_first(position: Position) -> bool
    ensures { result ≡ is_first position }
{
    matches!(position, Position::FirstByte)
}

// The token that stands first in the rest of a line.
fn word(bytes: &[u8], position: Position) -> Found
    requires { NoSpaceFirst bytes.now }
    ensures { WordFirst (is_first position) bytes.now result }
{
    let Some(first) = bytes.first() else {
        return Found {
            token: Ok(Token::Cut),
            length: 0,
            next: position,
        };
    };
    let kind = kind_of(*first);
    if let ByteKind::Digit = kind {
        let (length, value) = number(bytes);
        let Some(value) = value else {
            return Found {
                token: Err(ScanCause::NumberTooLarge),
                length,
                next: Position::Within,
            };
        };
        return Found {
            token: Ok(Token::Number(value)),
            length,
            next: Position::Within,
        };
    }
    let Some((token, next)) = single(kind, is_first(position)) else {
        return Found {
            token: Err(ScanCause::UnknownByte),
            length: 0,
            next: position,
        };
    };
    Found {
        token: Ok(token),
        length: 1,
        next,
    }
}

// How many digits stand first, and their value, unless it is above 65,535.
fn number(bytes: &[u8]) -> (usize, Option<u16>)
    ensures longest { result.0 ≡ prefix_len digit bytes.now }
    ensures value { MatchOption result.1 (65535 < value 0 (take result.0 bytes.now)) (λ v. v ≡ value 0 (take result.0 bytes.now)) }
{
    let mut rest = bytes;
    let mut value: u32 = 0;
    while let [digit @ b'0'..=b'9', after @ ..] = rest {
        value = (value * 10 + u32::from(*digit - b'0')).min(65536);
        rest = after;
    }
    (bytes.len() - rest.len(), u16::try_from(value).ok())
}

// The token that a byte by itself is, with the position after it.
fn single(kind: ByteKind, is_first: bool) -> Option<(Token, Position)>
    ensures { result ≡ single_token kind is_first }
{
    let token = match kind {
        ByteKind::Feed => return Some((Token::Feed, Position::LineStart)),
        ByteKind::Open => Token::Open,
        ByteKind::Close => Token::Close,
        ByteKind::Comma => Token::Comma,
        ByteKind::Header if is_first => Token::Header,
        ByteKind::Header => Token::Stray,
        _ => return None,
    };
    Some((token, Position::Within))
}
