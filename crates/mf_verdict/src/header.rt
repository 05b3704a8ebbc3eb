//! The line in front of a script that is to be audited with a text.
ghost use Rattle.std.specs.Str.{byte};
ghost use Rattle.std.specs.Prelude.{◌≡◌, ◌≢◌, ℕ, ◌≤◌, List, ◌∷◌, ◌++◌, length, MatchOption};
ghost use Rattle.std.specs.Fmt.{decimal};
ghost use Rattle.mf_verdict.specs.Header.{IsCheckInput};

use crate::lines::split_at_newline;
use itoa::Buffer;
use mf_names::SCRIPT_LIMIT;

/// The script and the text behind it. None where there is no line with the script's length in front, or fewer bytes than that
/// behind it.
pub fn split_input(bytes: &[u8]) -> Option<(&[u8], &[u8])>
    ensures { MatchOption result
        ((script : List ℕ) (text : List ℕ) → ¬ IsCheckInput bytes.now script text)
        (λ parts. IsCheckInput bytes.now parts.0.now parts.1.now) }
{
    let behind = bytes.strip_prefix(b"script ")?;
    let (length, rest) = split_number(behind)?;
    if length <= rest.len() {
        Some(rest.split_at(length))
    } else {
        None
    }
}

/// The number whose digits are the first line, up to the greatest length of a script, and the text behind that line.
fn split_number(text: &[u8]) -> Option<(usize, &[u8])>
    ensures { MatchOption result
        ((n : ℕ) (rest : List ℕ) → n ≤ SCRIPT_LIMIT → text.now ≢ decimal n ++ byte "\n" ∷ rest)
        (λ found. (found.0 ≤ SCRIPT_LIMIT)
        × (text.now ≡ decimal found.0 ++ byte "\n" ∷ found.1.now)) }
{
    let (digits, rest) = split_at_newline(text)?;
    let number = number_of(digits)?;
    Some((number, rest))
}

/// The number whose digits these are, up to the greatest length of a script.
fn number_of(digits: &[u8]) -> Option<usize>
    ensures { MatchOption result ((n : ℕ) → n ≤ SCRIPT_LIMIT → digits.now ≢ decimal n)
        (λ n. (n ≤ SCRIPT_LIMIT) × (digits.now ≡ decimal n)) }
{
    let Ok(text) = str::from_utf8(digits) else {
        return None;
    };
    let Ok(number) = text.parse::<usize>() else {
        return None;
    };
    if number <= SCRIPT_LIMIT && Buffer::new().format(number).as_bytes() == digits {
        Some(number)
    } else {
        None
    }
}
