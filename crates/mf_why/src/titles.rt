//! What lines name: the task with its line, and the parties of a check.
ghost use Rattle.std.specs.Prelude.{◌≡◌, ◌++◌, codes, string_bytes, IfOk, OnOk, OnErr};
ghost use Rattle.std.specs.Fmt.{decimal};
ghost use Rattle.mf_text.specs.Appending.{Extends};
ghost use Rattle.mf_objects.specs.Titles.{title_at};
ghost use Rattle.mf_why.specs.Lines as spec;

use itoa::Buffer;
use mf_item::Item;
use mf_objects::Objects;
use std::alloc::{AllocError, Global};

/// The task and the number of its line, as each line of a call names them.
pub fn place_of(alloc: Global, task: &str, number: u32) -> Result<String, AllocError>
    ensures { IfOk result (λ text. string_bytes text ≡ task.now ++ codes " " ++ decimal number) }
{
    let mut text = String::new(alloc);
    text.push_str(task)?;
    text.push_str(" ")?;
    text.push_str(Buffer::new().format(number))?;
    Ok(text)
}

/// The beginning of a line: its word, and the place, each with a blank behind it.
pub fn push_head(word: &str, place: &str, text: &mut String) -> Result<(), AllocError>
    ensures ok { OnOk result (string_bytes text.new
        ≡ string_bytes text.old ++ (word.now ++ codes " " ++ place.now ++ codes " ")) }
    ensures err { OnErr result (Extends (string_bytes text.old) (string_bytes text.new)) }
{
    text.push_str(word)?;
    text.push_str(" ")?;
    text.push_str(place)?;
    text.push_str(" ")
}

/// A word, with a blank behind it.
pub fn push_word(word: &str, text: &mut String) -> Result<(), AllocError>
    ensures ok { OnOk result (string_bytes text.new
        ≡ string_bytes text.old ++ (word.now ++ codes " ")) }
    ensures err { OnErr result (Extends (string_bytes text.old) (string_bytes text.new)) }
{
    text.push_str(word)?;
    text.push_str(" ")
}

/// A number, with a blank behind it.
pub fn push_number(number: u32, text: &mut String) -> Result<(), AllocError>
    ensures ok { OnOk result (string_bytes text.new
        ≡ string_bytes text.old ++ (decimal number ++ codes " ")) }
    ensures err { OnErr result (Extends (string_bytes text.old) (string_bytes text.new)) }
{
    text.push_str(Buffer::new().format(number))?;
    text.push_str(" ")
}

/// The subject's title, with a blank behind it.
pub fn push_subject(objects: &Objects, item: &Item, text: &mut String) -> Result<(), AllocError>
    ensures ok { OnOk result (string_bytes text.new
        ≡ string_bytes text.old ++ (spec.subject_title objects.now item.now ++ codes " ")) }
    ensures err { OnErr result (Extends (string_bytes text.old) (string_bytes text.new)) }
{
    push_title(objects, item.subject().id, text)?;
    text.push_str(" ")
}

/// The object's title at the end of a line.
pub fn push_last(objects: &Objects, item: &Item, text: &mut String) -> Result<(), AllocError>
    ensures ok { OnOk result (string_bytes text.new
        ≡ string_bytes text.old ++ (spec.object_title objects.now item.now ++ codes "\n")) }
    ensures err { OnErr result (Extends (string_bytes text.old) (string_bytes text.new)) }
{
    push_object(objects, item, text)?;
    text.push_str("\n")
}

/// The object's title; a dash where there is none.
fn push_object(objects: &Objects, item: &Item, text: &mut String) -> Result<(), AllocError>
    ensures ok { OnOk result (string_bytes text.new
        ≡ string_bytes text.old ++ spec.object_title objects.now item.now) }
    ensures err { OnErr result (Extends (string_bytes text.old) (string_bytes text.new)) }
{
    match item.object() {
        None => text.push_str("-"),
        Some(object) => push_title(objects, object.id, text),
    }
}

/// The title of the entity of that number.
fn push_title(objects: &Objects, number: u32, text: &mut String) -> Result<(), AllocError>
    ensures ok { OnOk result (string_bytes text.new
        ≡ string_bytes text.old ++ title_at objects.now (record { 0 = number })) }
    ensures err { OnErr result (Extends (string_bytes text.old) (string_bytes text.new)) }
{
    let _live = objects.live();
    match objects.least_from(number) {
        Some(id) if id.number() == number => objects.title(id, text),
        _ => Ok(()),
    }
}
