//! Numbers in decimal or octal digits.
ghost use Rattle.std.specs.Prelude.{◌≡◌, ◌≢◌, ◌≤◌, ◌^◌, ◌++◌, [], not, IfOk, OnOk, OnErr, MatchOption, string_bytes};
ghost use Rattle.std.specs.List.{position};
ghost use Rattle.std.specs.Char.{is_digit};
ghost use Rattle.std.specs.Fmt.{decimal};
ghost use Rattle.std.specs.Str.Parse.{digits_value};
ghost use Rattle.mf_text.specs.Number.{number_in};

use itoa::Buffer;
use std::alloc::AllocError;

/// What is wrong with the text of a number.
#[derive(Clone, Copy, Debug, PartialEq, Eq)]
pub enum NumberFault {
    /// The text is empty.
    Empty,
    /// The place of the first byte that is no digit, from 0.
    NotDigit(usize),
    /// All bytes are digits, and the value is below the least or above the greatest.
    OutOfRange,
}

/// The value of a text of decimal digits, from `least` to `greatest`. Leading zeros are accepted, a sign isn't.
pub fn read_number(text: &str, least: u32, greatest: u32) -> Result<u32, NumberFault>
    ensures value { result ≡ number_in 10 least greatest text.now }
    ensures within { IfOk result (λ value. (least ≤ value) × (value ≤ greatest)) }
{
    read_in_base(text, 10, least, greatest)
}

/// The value of a text of octal digits, up to `greatest`. Leading zeros are accepted; 8 and 9 are no digits here.
pub fn read_octal(text: &str, greatest: u32) -> Result<u32, NumberFault>
    ensures value { result ≡ number_in 8 0 greatest text.now }
    ensures within { IfOk result (λ value. value ≤ greatest) }
{
    read_in_base(text, 8, 0, greatest)
}

#[tactic(auto, unfolding(crate::specs::Number::number_in))]
fn read_in_base(text: &str, base: u32, least: u32, greatest: u32) -> Result<u32, NumberFault>
    requires lower { 2 ≤ base }
    requires upper { base ≤ 10 }
    ensures value { result ≡ number_in base least greatest text.now }
    ensures within { IfOk result (λ value. (least ≤ value) × (value ≤ greatest)) }
{
    if text.is_empty() {
        return Err(NumberFault::Empty);
    }
    match first_other(text.as_bytes(), base) {
        Some(place) => Err(NumberFault::NotDigit(place)),
        None => match value_of(text, base) {
            Some(value) if least <= value && value <= greatest => Ok(value),
            _ => Err(NumberFault::OutOfRange),
        },
    }
}

fn is_digit(byte: u8, base: u32) -> bool
    requires lower { 2 ≤ base }
    requires upper { base ≤ 10 }
    ensures { result ≡ is_digit byte base }
{
    char::from(byte).is_digit(base)
}

/// The place of the first byte that is no digit.
fn first_other(text: &[u8], base: u32) -> Option<usize>
    requires lower { 2 ≤ base }
    requires upper { base ≤ 10 }
    ensures { result ≡ position (λ byte. not (is_digit byte base)) text.now }
{
    text.iter().position(|byte| !is_digit(*byte, base))
}

/// The value of a text of digits. None where it has more than 32 bits.
fn value_of(digits: &str, base: u32) -> Option<u32>
    requires lower { 2 ≤ base }
    requires upper { base ≤ 10 }
    requires some { digits.now ≢ [] }
    requires digits { position (λ byte. not (is_digit byte base)) digits.now ≡ None }
    ensures { MatchOption result (2 ^ 32 ≤ digits_value base digits.now)
        (λ value. value ≡ digits_value base digits.now) }
{
    u32::from_str_radix(digits, base).ok()
}

/// Appends the number in decimal digits, without leading zeros. If memory runs out, `out` is unchanged. Most numbers of a
/// history have one digit.
#[inline(always)]
#[tactic(auto, using(std::proofs::lemmas::Fmt::decimal_digit))]
pub fn print_number(number: u64, out: &mut String) -> Result<(), AllocError>
    ensures ok { OnOk result (string_bytes out.new ≡ string_bytes out.old ++ decimal number) }
    ensures err { OnErr result (string_bytes out.new ≡ string_bytes out.old) }
{
    if number < 10 {
        return out.push(char::from(b'0' + number as u8));
    }
    print_digits(number, out)
}

#[inline(never)]
fn print_digits(number: u64, out: &mut String) -> Result<(), AllocError>
    ensures ok { OnOk result (string_bytes out.new ≡ string_bytes out.old ++ decimal number) }
    ensures err { OnErr result (string_bytes out.new ≡ string_bytes out.old) }
{
    out.push_str(Buffer::new().format(number))
}
