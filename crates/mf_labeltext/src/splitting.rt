//! Splitting texts at a separator.
ghost use Rattle.std.specs.Prelude.{◌≡◌, ◌+◌, ◌<◌, length, None, Some, MatchOption, IfSome};
ghost use Rattle.mf_labeltext.specs.Reading.{cut};

/// The text before the first separator, and the text after it, as std's `split_once` gives them.
pub fn split_once(text: &str, separator: char) -> Option<(&str, &str)>
    requires { separator < 128 }
    ensures cut { MatchOption result (cut separator text.now ≡ None)
        (λ halves. cut separator text.now ≡ Some (halves.0.now, halves.1.now)) }
    ensures whole { IfSome result
        (λ halves. length halves.0.now + length halves.1.now + 1 ≡ length text.now) }
{
    text.split_once(separator)
}
