//! Printing numbers in octal digits.
ghost use Rattle.std.specs.Prelude.{◌≡◌, ◌<◌, ◌+◌, [], ◌∷◌, ◌++◌, false, OnOk, OnErr, string_bytes};
ghost use Rattle.std.specs.Fmt.{digits};
ghost use Rattle.std.specs.Str.{byte};
ghost use Rattle.mf_text.specs.Appending.{Extends};

use std::alloc::AllocError;

/// Appends the number in octal digits, without leading zeros. If memory runs out, `out` is unchanged.
pub fn print_octal(number: u16, out: &mut String) -> Result<(), AllocError>
    ensures ok { OnOk result
        (string_bytes out.new ≡ string_bytes out.old ++ digits 8 false number) }
    ensures err { OnErr result (string_bytes out.new ≡ string_bytes out.old) }
{
    let length = out.len();
    let appended = push_octal(number, out);
    if appended.is_err() {
        out.truncate(length);
    }
    appended
}

/// The digits one by one. No clause says what `write!` leaves of `out` where it fails, and `format!` takes memory for each number.
#[tactic(auto, using(crate::proofs::OctalDigits::one_digit, crate::proofs::OctalDigits::digit_more))]
fn push_octal(number: u16, out: &mut String) -> Result<(), AllocError>
    ensures ok { OnOk result
        (string_bytes out.new ≡ string_bytes out.old ++ digits 8 false number) }
    ensures err { OnErr result (Extends (string_bytes out.old) (string_bytes out.new)) }
{
    if number < 8 {
        return push_octal_digit(number, out);
    }
    push_octal(number / 8, out)?;
    push_octal_digit(number % 8, out)
}

fn push_octal_digit(digit: u16, out: &mut String) -> Result<(), AllocError>
    requires { digit < 8 }
    ensures ok { OnOk result
        (string_bytes out.new ≡ string_bytes out.old ++ (byte "0" + digit) ∷ []) }
    ensures err { OnErr result (Extends (string_bytes out.old) (string_bytes out.new)) }
{
    out.push(char::from(b'0' + digit as u8))
}
