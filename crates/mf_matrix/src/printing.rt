//! The text of the matrix.
ghost use Rattle.std.specs.Prelude.{◌≡◌, ◌++◌, codes, List, length, map, string_bytes, OnOk, OnErr};
ghost use Rattle.std.specs.List.{flat_map};
ghost use Rattle.mf_text.specs.Appending.{Extends};
ghost use Rattle.mf_policy.specs.Registration.{Entry};
ghost use Rattle.mf_matrix.specs.Matrix as matrix;
ghost use Rattle.mf_matrix.specs.MatrixText as spec;
ghost use Rattle.mf_matrix.specs.Slotted.{AreSlotted};

use crate::letters::{Letter, letters_for};
use crate::matrix::{Row, rows_of};
use crate::pairs::{Pair, pairs_of};
use crate::parties::parties_of;
use mf_plan::State;
use std::alloc::{AllocError, Global};
use std::thread::Threads;

/// Appends a line for each row of the matrix of a state. As many threads share its making as there are processors. If memory
/// runs out, the text is unchanged.
pub fn print_matrix<R: Threads + Sync>(
    rt: &R,
    alloc: Global,
    state: &State,
    text: &mut String,
) -> Result<(), AllocError>
    requires slots { AreSlotted state.now.specs }
    ensures ok { OnOk result (string_bytes text.new
        ≡ string_bytes text.old ++ spec.matrix_text state.now) }
    ensures err { OnErr result (string_bytes text.new ≡ string_bytes text.old) }
{
    let parties = parties_of(alloc, &state.objects)?;
    let pairs = pairs_of(alloc, &parties)?;
    let rows = rows_of(rt, alloc, &state.specs, &pairs)?;
    let length = text.len();
    let appended = push_rows(&pairs, &rows, text);
    if appended.is_err() {
        text.truncate(length);
    }
    appended
}

/// The line of each pair, with its row.
fn push_rows(pairs: &[Pair], rows: &[Row], text: &mut String) -> Result<(), AllocError>
    requires { length rows.now ≡ length pairs.now }
    ensures ok { (listed : List Entry) → rows.now ≡ map (matrix.row_of listed) pairs.now
        → OnOk result (string_bytes text.new
        ≡ string_bytes text.old ++ flat_map (spec.row_text listed) pairs.now) }
    ensures err { OnErr result (Extends (string_bytes text.old) (string_bytes text.new)) }
{
    for (place, row) in rows.iter().enumerate() {
        push_row(&pairs[place], row, text)?;
    }
    Ok(())
}

fn push_row(pair: &Pair, row: &Row, text: &mut String) -> Result<(), AllocError>
    ensures ok { OnOk result (string_bytes text.new
        ≡ string_bytes text.old ++ spec.line_text pair.now row.now.passed) }
    ensures err { OnErr result (Extends (string_bytes text.old) (string_bytes text.new)) }
{
    push_titles(pair, text)?;
    push_signs(&letters_for(&pair.object.object), &row.passed, text)?;
    text.push('\n')
}

/// What stands in front of the letters.
fn push_titles(pair: &Pair, text: &mut String) -> Result<(), AllocError>
    ensures ok { OnOk result (string_bytes text.new ≡ string_bytes text.old
        ++ (codes "matrix " ++ pair.now.subject.title ++ codes " " ++ pair.now.object.title
        ++ codes " ")) }
    ensures err { OnErr result (Extends (string_bytes text.old) (string_bytes text.new)) }
{
    text.push_str("matrix ")?;
    text.push_str(pair.subject.title.as_str())?;
    text.push(' ')?;
    text.push_str(pair.object.title.as_str())?;
    text.push(' ')
}

/// The letters, with a dash for each that doesn't pass.
fn push_signs(
    letters: &[Option<Letter>; 4],
    passed: &[bool; 4],
    text: &mut String,
) -> Result<(), AllocError>
    ensures ok { OnOk result (string_bytes text.new
        ≡ string_bytes text.old ++ spec.signs_text letters.now passed.now) }
    ensures err { OnErr result (Extends (string_bytes text.old) (string_bytes text.new)) }
{
    let [first, second, third, fourth] = letters;
    let [may_first, may_second, may_third, may_fourth] = passed;
    push_sign(first, *may_first, text)?;
    push_sign(second, *may_second, text)?;
    push_sign(third, *may_third, text)?;
    push_sign(fourth, *may_fourth, text)
}

fn push_sign(letter: &Option<Letter>, passed: bool, text: &mut String) -> Result<(), AllocError>
    ensures ok { OnOk result (string_bytes text.new
        ≡ string_bytes text.old ++ spec.sign_text letter.now passed) }
    ensures err { OnErr result (Extends (string_bytes text.old) (string_bytes text.new)) }
{
    match letter {
        None => Ok(()),
        Some(letter) if passed => text.push(letter.sign),
        Some(_) => text.push('-'),
    }
}
