//! The words of a rule that stand for numbers and for sets of letters.
ghost use Rattle.std.specs.Prelude.{◌≡◌};
ghost use Rattle.mf_rule.specs.Words as spec;
ghost use Rattle.mf_labeltext.specs.Reading.{cut, parts};
ghost use Rattle.std.specs.Prelude.{◌<◌, ◌==◌, [], ◌∷◌, length, None, Some, IfSome, MatchOption, find, if◌then◌else◌, nat_le, option_map};

use crate::rule::{
    ADMINISTER, ANY_TYPE, BLOCK, CHARACTER, DIRECTORY, EXECUTE, FIFO, LAST_ID, LINK, READ, REGULAR,
    SOCKET, STAT, WRITE,
};
use mf_text::read_number;

/// The text before the first separator, and the text after it.
pub fn split_once(text: &str, separator: char) -> Option<(&str, &str)>
    requires { separator < 128 }
    ensures cut { MatchOption result (cut separator text.now ≡ None)
        (λ halves. cut separator text.now ≡ Some (halves.0.now, halves.1.now)) }
    ensures parted { MatchOption result (parts separator text.now ≡ text.now ∷ [])
        (λ halves. parts separator text.now ≡ halves.0.now ∷ parts separator halves.1.now) }
    ensures less { IfSome result (λ halves. length halves.1.now < length text.now) }
{
    text.split_once(separator)
}

/// A uid or gid.
#[tactic(auto, unfolding(mf_labeltext::specs::Reading::number))]
pub fn read_id(word: &str) -> Option<u32>
    ensures { result ≡ spec.id word.now }
{
    read_number(word, 0, LAST_ID).ok()
}

fn ordered(least: u32, greatest: u32) -> Option<(u32, u32)>
    ensures { result ≡ (if nat_le least greatest then Some (least, greatest) else None) }
{
    if least <= greatest {
        Some((least, greatest))
    } else {
        None
    }
}

/// The least and the greatest id of a range.
#[tactic(auto, unfolding(crate::specs::Words::id_range_in))]
pub fn read_range(word: &str) -> Option<(u32, u32)>
    ensures { result ≡ spec.id_range_in word.now }
{
    match split_once(word, ':') {
        None => {
            let id = read_id(word)?;
            ordered(id, id)
        }
        Some((least, greatest)) => {
            let least = read_id(least)?;
            let greatest = read_id(greatest)?;
            ordered(least, greatest)
        }
    }
}

/// The letters of a mode with their bits, in the order of the canonical text. The first stands there alone, for just its bits.
pub const MODE_LETTERS: [(u8, u8); 6] = [
    (b'n', 0),
    (b'a', ADMINISTER),
    (b'r', READ),
    (b's', STAT),
    (b'w', WRITE),
    (b'x', EXECUTE),
];

/// The same of types.
pub const TYPE_LETTERS: [(u8, u8); 8] = [
    (b'a', ANY_TYPE),
    (b'r', REGULAR),
    (b'd', DIRECTORY),
    (b'b', BLOCK),
    (b'c', CHARACTER),
    (b'l', LINK),
    (b's', SOCKET),
    (b'p', FIFO),
];

/// The letters of a mode, as bits.
#[tactic(auto, unfolding(crate::specs::Words::mode_in))]
pub fn read_mode(word: &str) -> Option<u8>
    ensures { result ≡ spec.mode_in word.now }
{
    letter_bits(&MODE_LETTERS, word.as_bytes())
}

/// The letters of types, as bits.
#[tactic(auto, unfolding(crate::specs::Words::types_in))]
pub fn read_types(word: &str) -> Option<u8>
    ensures { result ≡ spec.types_in word.now }
{
    letter_bits(&TYPE_LETTERS, word.as_bytes())
}

#[tactic(auto, unfolding(crate::specs::Words::letters_in, crate::specs::Words::with_letters))]
fn letter_bits(table: &[(u8, u8)], letters: &[u8]) -> Option<u8>
    ensures { result ≡ spec.letters_in table.now letters.now }
{
    if letters.is_empty() {
        return None;
    }
    let mut bits = 0;
    let mut rest = letters;
    while let [letter, after @ ..] = rest {
        bits |= bit_of(table, *letter)?;
        rest = after;
    }
    Some(bits)
}

fn bit_of(table: &[(u8, u8)], letter: u8) -> Option<u8>
    ensures { result ≡ option_map (λ row. row.1) (find (λ row. row.0 == letter) table.now) }
{
    let row = table.iter().find(|row| row.0 == letter)?;
    Some(row.1)
}
