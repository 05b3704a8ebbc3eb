//! The words of a line and the lines of a text, one after another.
ghost use Rattle.std.specs.Prelude.{◌≡◌, ◌≢◌, ◌≤◌, ◌<◌, ◌+◌, [], ◌∷◌, length, drop, MatchOption, IfSome, true};
ghost use Rattle.std.specs.Str.{IsAscii};
ghost use Rattle.mf_words.specs.Words.{is_blank, is_comment, lines_in, words_in, goes_on};
ghost use Rattle.mf_words.specs.Ends.{word_end, line_end};

use std::marker::Model;

/// The remaining words of a line of at most `MOST` bytes. Contracts see their list.
#[derive(Drop)]
pub struct Words<'a, const MOST: usize> {
    rest: &'a [u8],
}

impl<'a, const MOST: usize> Model for Words<'a, MOST> {
    ghost use Rattle.std.specs.Prelude.{List, ℕ, ◌≤◌, length};
    ghost use Rattle.std.specs.Str.{IsAscii};
    ghost use Rattle.mf_words.specs.Words.{words_in};

    ghost Value = { List (List ℕ) };

    ghost view = { λ w. words_in w.rest.now };

    ghost invariant = { λ w. IsAscii w.rest.now × (length w.rest.now ≤ MOST) };
}

impl<'a, const MOST: usize> Words<'a, MOST> {
    /// The words of a line.
    pub fn of(line: &'a [u8]) -> Self
        requires ascii { IsAscii line.now }
        requires most { length line.now ≤ MOST }
        ensures { result ≡ words_in line.now }
    {
        Words { rest: line }
    }

    /// The next word, where there is one.
    pub fn next(&mut self) -> Option<&'a str>
        ensures words { MatchOption result ((self.old ≡ []) × (self.new ≡ []))
            (λ word. self.old ≡ word.now ∷ self.new) }
        ensures most { IfSome result (λ word. length word.now ≤ MOST) }
    {
        let (word, after) = split_word(skip_blanks(self.rest));
        self.rest = after;
        if word.is_empty() {
            None
        } else {
            Some(ascii_text(word))
        }
    }
}

/// The text of these ASCII bytes.
fn ascii_text(bytes: &[u8]) -> &str
    requires { IsAscii bytes.now }
    ensures { result.now ≡ bytes.now }
{
    // SAFETY: ASCII is UTF-8.
    unsafe { str::from_utf8_unchecked(bytes) }
}

fn is_blank(byte: u8) -> bool
    ensures { result ≡ is_blank byte }
{
    byte == b' ' || byte == b'\t'
}

/// The bytes without the blanks at the front.
fn skip_blanks(bytes: &[u8]) -> &[u8]
    ensures words { words_in result.now ≡ words_in bytes.now }
    ensures start { result.now ≢ [] → goes_on result.now ≡ true }
    ensures ascii { IsAscii bytes.now → IsAscii result.now }
    ensures most { length result.now ≤ length bytes.now }
{
    let mut rest = bytes;
    while let [first, after @ ..] = rest {
        if !is_blank(*first) {
            return rest;
        }
        rest = after;
    }
    rest
}

/// The first word, and the bytes after it.
fn split_word(bytes: &[u8]) -> (&[u8], &[u8])
    requires { bytes.now ≢ [] → goes_on bytes.now ≡ true }
    ensures none { result.0.now ≡ [] → words_in bytes.now ≡ [] × (words_in result.1.now ≡ []) }
    ensures some { result.0.now ≢ [] → words_in bytes.now ≡ result.0.now ∷ words_in result.1.now }
    ensures ascii { IsAscii bytes.now → IsAscii result.0.now × IsAscii result.1.now }
    ensures most { length result.0.now + length result.1.now ≡ length bytes.now }
{
    bytes.split_at(word_len(bytes))
}

fn word_len(bytes: &[u8]) -> usize
    ensures value { result ≡ word_end bytes.now }
    ensures within { result ≤ length bytes.now }
{
    for (i, byte) in bytes.iter().enumerate() {
        if is_blank(*byte) {
            return i;
        }
    }
    bytes.len()
}

fn line_len(bytes: &[u8]) -> usize
    ensures value { result ≡ line_end bytes.now }
    ensures within { result ≤ length bytes.now }
{
    for (i, byte) in bytes.iter().enumerate() {
        if *byte == b'\n' {
            return i;
        }
    }
    bytes.len()
}

/// The first line, and the bytes after its newline.
fn split_line(bytes: &[u8]) -> (&[u8], &[u8])
    requires { bytes.now ≢ [] }
    ensures lines { lines_in bytes.now ≡ result.0.now ∷ lines_in result.1.now }
    ensures less { length result.1.now < length bytes.now }
    ensures most { length result.0.now ≤ length bytes.now }
{
    let end = line_len(bytes);
    (&bytes[..end], behind_newline(bytes, end))
}

fn behind_newline(bytes: &[u8], end: usize) -> &[u8]
    requires some { bytes.now ≢ [] }
    requires within { end ≤ length bytes.now }
    ensures value { result.now ≡ drop (end + 1) bytes.now }
    ensures less { length result.now < length bytes.now }
{
    if end < bytes.len() {
        &bytes[end + 1..]
    } else {
        &[]
    }
}

/// The remaining lines of a text of at most `MOST` bytes, each without its newline. Contracts see their list.
#[derive(Drop)]
pub struct Lines<'a, const MOST: usize> {
    rest: &'a [u8],
}

impl<'a, const MOST: usize> Model for Lines<'a, MOST> {
    ghost use Rattle.std.specs.Prelude.{List, ℕ, ◌≤◌, length};
    ghost use Rattle.mf_words.specs.Words.{lines_in};

    ghost Value = { List (List ℕ) };

    ghost view = { λ l. lines_in l.rest.now };

    ghost invariant = { λ l. length l.rest.now ≤ MOST };
}

impl<'a, const MOST: usize> Lines<'a, MOST> {
    /// The lines of a text.
    pub fn of(bytes: &'a [u8]) -> Self
        requires { length bytes.now ≤ MOST }
        ensures lines { result ≡ lines_in bytes.now }
        ensures few { length result ≤ MOST }
    {
        Lines { rest: bytes }
    }

    /// The next line, where there is one.
    pub fn next(&mut self) -> Option<&'a [u8]>
        ensures lines { MatchOption result ((self.old ≡ []) × (self.new ≡ []))
            (λ line. self.old ≡ line.now ∷ self.new) }
        ensures most { IfSome result (λ line. length line.now ≤ MOST) }
    {
        if self.rest.is_empty() {
            return None;
        }
        let (line, after) = split_line(self.rest);
        self.rest = after;
        Some(line)
    }
}

/// Whether the word begins a comment.
pub fn is_comment(word: &str) -> bool
    ensures { result ≡ is_comment word.now }
{
    match word.as_bytes().first() {
        None => false,
        Some(byte) => *byte == b'#',
    }
}
