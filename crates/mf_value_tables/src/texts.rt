//! Texts of numbers, and of bytes with escapes.

use crate::asked::{holds, wants};
use mf_text::{
    NumberFault, TextFault, escape, print_number, print_octal, read_number, read_octal, unescape,
    unescape_bytes,
};
use std::alloc::{AllocError, Global};

/// Bytes that need escapes, and two that don't.
const BYTES: &[u8] = &[97, 32, 92, 0, 255];

/// Appends a text of them, and a number.
fn append_both(out: &mut String) -> bool {
    let is_appended = escape(BYTES, out).is_ok() && out.as_str() == "text a\\20\\5c\\00\\ff";
    is_appended && print_number(4294967295, out).is_ok()
}

fn texts_are_appended(alloc: Global) -> Result<bool, AllocError> {
    let mut out = String::from_str(alloc, "text ")?;
    let are_appended = append_both(&mut out);
    Ok(are_appended && out.as_str() == "text a\\20\\5c\\00\\ff4294967295")
}

/// Appends two numbers in octal digits to no text.
fn octal_is_appended(alloc: Global) -> bool {
    let mut out = String::new(alloc);
    let are_appended = print_octal(0, &mut out).is_ok() && print_octal(4095, &mut out).is_ok();
    are_appended && out.as_str() == "07777"
}

fn escapes_of_either_case(alloc: Global) -> bool {
    match unescape(alloc, "a\\20\\5C\\00\\fF") {
        Ok(read) => read.as_slice() == BYTES,
        Err(_) => false,
    }
}

/// The place of the first bad escape; None where there is none, or no memory.
fn bad_escape(alloc: Global, text: &str) -> Option<usize> {
    match unescape_bytes(alloc, text.as_bytes()) {
        Err(TextFault::BadEscape(place)) => Some(place),
        _ => None,
    }
}

/// Texts, and the places of their first bad escapes.
const BAD_ESCAPES: &[(&str, usize)] = &[("a\\2", 1), ("\\", 0), ("\\5c\\5g", 3), ("é\\", 2)];

fn bad_escapes(alloc: Global) -> bool {
    let mut holds = true;
    for (text, place) in BAD_ESCAPES {
        holds &= bad_escape(alloc, text) == Some(*place);
    }
    holds
}

/// Texts, the least number that is read, the greatest, and what is read.
const NUMBERS: &[(&str, u32, u32, Result<u32, NumberFault>)] = &[
    ("0", 0, 65535, Ok(0)),
    ("00065535", 0, 65535, Ok(65535)),
    ("65536", 0, 65535, Err(NumberFault::OutOfRange)),
    ("", 0, 65535, Err(NumberFault::Empty)),
    ("+5", 0, 65535, Err(NumberFault::NotDigit(0))),
    ("12 ", 0, 65535, Err(NumberFault::NotDigit(2))),
    ("1é", 0, 65535, Err(NumberFault::NotDigit(1))),
    (
        "18446744073709551617",
        0,
        65535,
        Err(NumberFault::OutOfRange),
    ),
    ("0", 1, 256, Err(NumberFault::OutOfRange)),
    ("256", 1, 256, Ok(256)),
];

fn numbers_and_their_faults() -> bool {
    let mut holds = true;
    for (text, least, greatest, read) in NUMBERS {
        holds &= read_number(text, *least, *greatest) == *read;
    }
    holds
}

/// Texts of modes, and what is read.
const MODES: &[(&str, Result<u32, NumberFault>)] = &[
    ("00755", Ok(493)),
    ("08", Err(NumberFault::NotDigit(1))),
    ("10000", Err(NumberFault::OutOfRange)),
];

fn octal_numbers() -> bool {
    let mut holds = true;
    for (text, read) in MODES {
        holds &= read_octal(text, 4095) == *read;
    }
    holds
}

#[test]
fn texts_of_bytes_and_of_numbers(rt: HostRuntime) {
    wants(&rt, "texts", holds(texts_are_appended(rt.alloc())));
    wants(&rt, "octal digits", octal_is_appended(rt.alloc()));
    wants(&rt, "escapes", escapes_of_either_case(rt.alloc()));
    wants(&rt, "bad escapes", bad_escapes(rt.alloc()));
    wants(&rt, "numbers", numbers_and_their_faults());
    wants(&rt, "octal numbers", octal_numbers());
}
