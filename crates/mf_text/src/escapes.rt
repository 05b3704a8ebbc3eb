//! Texts that stand for bytes, with an escape for each byte that isn't printable.
ghost use Rattle.std.specs.Prelude.{◌≡◌, ◌≢◌, ℕ, ◌+◌, ◌-◌, ◌<◌, ◌++◌, [], ◌∷◌, length, Ok, Err, MatchOption, MatchResult, IfOk, IfErr, IfSome, OnOk, OnErr, string_bytes};
ghost use Rattle.std.specs.Char.{digit_char};
ghost use Rattle.mf_text.specs.Appending.{Extends};
ghost use Rattle.mf_text.specs.Escape.{escaped, escaped_byte, is_literal, bytes_of};
ghost use Rattle.mf_text.specs.EscapeLaws.{BeginsWithBadEscape, StandsForByteThen, IsFaultOf, EscapedTextStandsForItsBytes};
ghost use Rattle.mf_text.specs.declared.escapes.TextFault.TheVariants.{Memory};

use std::alloc::{AllocError, AllocFailed, Global};

/// The byte that an escape begins with.
const BACKSLASH: u8 = b'\\';

/// Why the bytes of a text could not be read.
#[derive(Debug, Drop, PartialEq, Eq)]
pub enum TextFault {
    /// The place of the first backslash without two hexadecimal digits after it, from 0.
    BadEscape(usize),
    /// Memory ran out.
    Memory,
}

impl From<AllocError> for TextFault {
    ghost from_gives = { λ _ fault. fault ≡ Memory };

    fn from(_error: AllocError) -> TextFault {
        TextFault::Memory
    }
}

impl<T: Drop> From<AllocFailed<T>> for TextFault {
    ghost from_gives = { λ _ fault. fault ≡ Memory };

    fn from(_error: AllocFailed<T>) -> TextFault {
        TextFault::Memory
    }
}

/// The bytes that a text stands for. A backslash and two hexadecimal digits of either case stand for one byte, every other
/// byte for itself.
pub fn unescape(alloc: Global, text: &str) -> Result<Vec<u8>, TextFault>
    ensures ok { IfOk result (λ bytes. bytes_of text.now ≡ Ok bytes.items) }
    ensures err { IfErr result (λ fault. IsFaultOf fault (bytes_of text.now)) }
{
    unescape_bytes(alloc, text.as_bytes())
}

/// The same as `unescape` for the bytes of a text.
pub fn unescape_bytes(alloc: Global, text: &[u8]) -> Result<Vec<u8>, TextFault>
    ensures ok { IfOk result (λ bytes. bytes_of text.now ≡ Ok bytes.items) }
    ensures err { IfErr result (λ fault. IsFaultOf fault (bytes_of text.now)) }
{
    let mut bytes = Vec::new(alloc);
    let mut rest = text;
    while !rest.is_empty() {
        match split_byte(rest) {
            None => return Err(TextFault::BadEscape(text.len() - rest.len())),
            Some((byte, after)) => {
                bytes.push(byte)?;
                rest = after;
            }
        }
    }
    Ok(bytes)
}

/// The first byte that the text stands for, and the text after it. None where its first escape is bad.
fn split_byte(text: &[u8]) -> Option<(u8, &[u8])>
    requires { text.now ≢ [] }
    ensures reads { MatchOption result (BeginsWithBadEscape text.now)
        (λ split. StandsForByteThen text.now split.0 split.1.now) }
    ensures less { IfSome result (λ split. length split.1.now < length text.now) }
{
    let (first, rest) = text.split_first()?;
    if *first == BACKSLASH {
        return split_escape(rest);
    }
    Some((*first, rest))
}

/// The byte of the two hexadecimal digits after a backslash, and the text after them.
#[tactic(auto, unfolding(crate::specs::Escape::bytes_from))]
fn split_escape(text: &[u8]) -> Option<(u8, &[u8])>
    ensures reads { MatchOption result (BeginsWithBadEscape (BACKSLASH ∷ text.now))
        (λ split. StandsForByteThen (BACKSLASH ∷ text.now) split.0 split.1.now) }
    ensures less { IfSome result (λ split. length split.1.now + 2 ≡ length text.now) }
{
    let (high, rest) = text.split_first()?;
    let (low, rest) = rest.split_first()?;
    let high = char::from(*high).to_digit(16)?;
    let low = char::from(*low).to_digit(16)?;
    Some(((high * 16 + low) as u8, rest))
}

/// Appends the escaped text of the bytes: the printable bytes of ASCII but the backslash as themselves, each other
/// byte, the blank too, as a backslash and two hexadecimal digits in lower case. If memory runs out, `out` is
/// unchanged.
pub fn escape(bytes: &[u8], out: &mut String) -> Result<(), AllocError>
    ensures ok { OnOk result (string_bytes out.new ≡ string_bytes out.old ++ escaped bytes.now) }
    ensures err { OnErr result (string_bytes out.new ≡ string_bytes out.old) }
{
    let length = out.len();
    let appended = push_all_escaped(bytes, out);
    if appended.is_err() {
        out.truncate(length);
    }
    appended
}

#[tactic(auto, unfolding(crate::specs::Escape::escaped))]
fn push_all_escaped(bytes: &[u8], out: &mut String) -> Result<(), AllocError>
    ensures ok { OnOk result (string_bytes out.new ≡ string_bytes out.old ++ escaped bytes.now) }
    ensures err { OnErr result (Extends (string_bytes out.old) (string_bytes out.new)) }
{
    for byte in bytes {
        push_escaped(*byte, out)?;
    }
    Ok(())
}

fn push_escaped(byte: u8, out: &mut String) -> Result<(), AllocError>
    ensures ok { OnOk result (string_bytes out.new ≡ string_bytes out.old ++ escaped_byte byte) }
    ensures err { OnErr result (Extends (string_bytes out.old) (string_bytes out.new)) }
{
    if is_literal(byte) {
        return out.push(char::from(byte));
    }
    out.push('\\')?;
    out.push(hexadecimal_digit(byte / 16))?;
    out.push(hexadecimal_digit(byte % 16))
}

fn is_literal(byte: u8) -> bool
    ensures { result ≡ is_literal byte }
{
    byte.is_ascii_graphic() && byte != BACKSLASH
}

fn hexadecimal_digit(value: u8) -> char
    requires { value < 16 }
    ensures digit { result ≡ digit_char value }
    ensures ascii { result < 128 }
{
    char::from_digit(u32::from(value), 16).unwrap()
}

/// Unescaping the text that `escape` writes gives the bytes that it was written from.
pub fn escape_and_back()
    ensures { EscapedTextStandsForItsBytes }
{}
