//! The lines of a text.
ghost use Rattle.std.specs.Str.{byte};
ghost use Rattle.std.specs.Prelude.{◌≡◌, ◌<◌, ◌≤◌, ◌+◌, ◌-◌, ◌^◌, ◌∷◌, ◌++◌, length, take, MatchOption, IfSome};
ghost use Rattle.std.specs.List.{concat};
ghost use Rattle.mf_hist.specs.Found.{Lacks};
ghost use Rattle.mf_verdict.specs.Pieces.{pieces, history_part, sources_part, IsFirstDifference};
ghost use Rattle.mf_verdict.specs.Lines.{IsFirstLine};

/// The text before the first newline, and the text behind it.
pub(crate) fn split_at_newline(text: &[u8]) -> Option<(&[u8], &[u8])>
    ensures { MatchOption result (Lacks (byte "\n") text.now)
        (λ halves. (text.now ≡ halves.0.now ++ byte "\n" ∷ halves.1.now)
        × Lacks (byte "\n") halves.0.now) }
{
    for (i, byte) in text.iter().enumerate() {
        if *byte == b'\n' {
            return Some((&text[..i], &text[i + 1..]));
        }
    }
    None
}

/// The first line with its newline, or the whole text where it has none, and the text behind it.
pub(crate) fn split_line(text: &[u8]) -> (&[u8], &[u8])
    ensures first { IsFirstLine text.now result.0.now result.1.now }
    ensures all { length result.0.now + length result.1.now ≡ length text.now }
{
    match split_at_newline(text) {
        None => (text, &[]),
        Some((front, _after)) => text.split_at(front.len() + 1),
    }
}

/// The text before the first line that begins as one of the sources, and the text from there on.
pub(crate) fn split_sources(text: &[u8]) -> (&[u8], &[u8])
    ensures parts { text.now ≡ result.0.now ++ result.1.now }
    ensures history { pieces result.0.now ≡ history_part text.now }
    ensures sources { pieces result.1.now ≡ sources_part text.now }
{
    let mut len = 0;
    let mut rest = text;
    while !rest.is_empty() {
        let (line, after) = split_line(rest);
        if line.starts_with(b"source ") {
            return (&text[..len], rest);
        }
        len += line.len();
        rest = after;
    }
    (text, &[])
}

/// The text of that many lines from the front on.
pub(crate) fn first_lines(text: &[u8], count: u32) -> &[u8]
    requires { count ≤ length (pieces text.now) }
    ensures lines { result.now ≡ concat (take count (pieces text.now)) }
    ensures within { length result.now ≤ length text.now }
{
    let mut len = 0;
    let mut rest = text;
    for _line in 0..count {
        let (line, after) = split_line(rest);
        len += line.len();
        rest = after;
    }
    &text[..len]
}

/// The number of the first line that isn't the same in both texts. None where they are the same.
pub(crate) fn first_difference(text: &[u8], other: &[u8]) -> Option<u32>
    requires { length text.now < 2 ^ 32 - 1 }
    ensures difference { MatchOption result (text.now ≡ other.now)
        (λ n. IsFirstDifference (pieces text.now) (pieces other.now) n) }
    ensures within { IfSome result (λ n. n ≤ length text.now + 1) }
{
    let mut same: u32 = 0;
    let mut left = text;
    let mut right = other;
    'lines: loop {
        let (line, after) = split_line(left);
        let (others, behind) = split_line(right);
        if line != others {
            return Some(same + 1);
        }
        if line.is_empty() {
            return None;
        }
        same += 1;
        left = after;
        right = behind;
    }
}
