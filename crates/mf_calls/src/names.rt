//! Names and components of paths.
ghost use Rattle.std.specs.Prelude.{◌≡◌, ◌||◌, codes};
ghost use Rattle.std.specs.Str.{bytes_eq};
ghost use Rattle.std.specs.List.{list_all};
ghost use Rattle.mf_calls.specs.Names.{is_name_byte, is_name, is_component_byte, is_component};

use mf_names::NAME_LIMIT;

fn is_name_byte(byte: u8) -> bool
    ensures { result ≡ is_name_byte byte }
{
    byte.is_ascii_alphanumeric() || byte == b'_' || byte == b'-'
}

fn is_component_byte(byte: u8) -> bool
    ensures { result ≡ is_component_byte byte }
{
    is_name_byte(byte) || byte == b'.'
}

fn are_name_bytes(word: &[u8]) -> bool
    ensures { result ≡ list_all is_name_byte word.now }
{
    word.iter().all(|byte| is_name_byte(*byte))
}

fn are_component_bytes(word: &[u8]) -> bool
    ensures { result ≡ list_all is_component_byte word.now }
{
    word.iter().all(|byte| is_component_byte(*byte))
}

/// Whether the word is a name: 1 to `NAME_LIMIT` letters, digits, `_` and `-`.
pub fn is_name(word: &str) -> bool
    ensures { result ≡ is_name word.now }
{
    let bytes = word.as_bytes();
    !bytes.is_empty() && bytes.len() <= NAME_LIMIT && are_name_bytes(bytes)
}

/// Whether the word is a component of a path: 1 to `NAME_LIMIT` bytes of names and dots, and neither `.` nor `..`.
pub fn is_component(word: &str) -> bool
    ensures { result ≡ is_component word.now }
{
    let bytes = word.as_bytes();
    !bytes.is_empty() && bytes.len() <= NAME_LIMIT && are_component_bytes(bytes) && !is_dots(bytes)
}

/// Whether these are the bytes of `.` or `..`.
fn is_dots(bytes: &[u8]) -> bool
    ensures { result ≡ (bytes_eq bytes.now (codes ".") || bytes_eq bytes.now (codes "..")) }
{
    matches!(bytes, [b'.'] | [b'.', b'.'])
}
