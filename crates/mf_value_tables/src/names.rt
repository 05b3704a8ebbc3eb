//! Names, paths, texts of a limited length, and lists.
ghost use Rattle.std.specs.Prelude.{◌≡◌, []};

use crate::asked::{holds, wants};
use mf_names::{Bytes, Components, Listing, Name, NameList, Path, Word};
use std::alloc::{AllocError, Global};

/// Whether these are the text's bytes.
fn has(text: &Bytes<4>, bytes: &[u8]) -> bool {
    text.as_slice() == bytes
}

/// Whether the text, which is "ab", is emptied and grows.
fn empties_and_grows(text: &mut Bytes<4>) -> bool {
    let is_filled = has(text, b"ab");
    text.clear();
    let is_empty = has(text, b"");
    is_filled && is_empty && text.append(b"cd").is_ok() && has(text, b"cd")
}

fn a_text_grows_and_is_emptied(alloc: Global) -> bool {
    match Bytes::copy_of(alloc, b"ab") {
        Ok(mut text) => empties_and_grows(&mut text),
        Err(AllocError) => false,
    }
}

/// Whether items stay in order in the list, which is empty.
fn keeps_order(numbers: &mut Listing<u32>) -> bool {
    let are_listed = numbers.push(2).is_ok() && numbers.push(1).is_ok() && numbers.len() == 2;
    are_listed && numbers.as_slice() == [2, 1].as_slice()
}

fn items_stay_in_order(alloc: Global) -> bool {
    keeps_order(&mut Listing::new(alloc))
}

fn words_keep_their_text(alloc: Global) -> Result<bool, AllocError> {
    let word = Word::from_string(String::from_str(alloc, "mac_biba")?);
    Ok(word.as_str() == "mac_biba")
}

/// Lists two names, one of which is made of a `String`.
fn list_two(alloc: Global, names: &mut NameList) -> Result<(), AllocError> {
    names.push(Name::from_str(alloc, "t0")?)?;
    names.push(Name::from_string(String::from_str(alloc, "t1")?))
}

/// Whether these are the two.
fn are_two(names: &[Name]) -> bool {
    names.len() == 2 && names[0].as_str() == "t0" && names[1].as_str() == "t1"
}

fn names_keep_their_text(alloc: Global) -> bool {
    let mut names = NameList::new(alloc);
    list_two(alloc, &mut names).is_ok() && names.len() == 2 && are_two(names.as_slice())
}

fn is_a_list_of_no_names(alloc: Global) -> bool {
    NameList::from_vec(Vec::new(alloc)).len() == 0
}

#[test]
fn texts_and_lists(rt: HostRuntime) {
    let alloc = rt.alloc();
    wants(&rt, "a text", a_text_grows_and_is_emptied(alloc));
    wants(&rt, "items", items_stay_in_order(alloc));
    wants(&rt, "words", holds(words_keep_their_text(alloc)));
    wants(&rt, "names", names_keep_their_text(alloc));
    wants(&rt, "no names", is_a_list_of_no_names(alloc));
}

/// Whether the path becomes /etc/motd, from the root.
fn becomes_motd(path: &mut Path) -> bool
    requires { path.old ≡ [] }
{
    path.push("etc").is_ok() && path.push("motd").is_ok()
}

/// Whether the next component is this.
fn is_next(components: &mut Components<'_>, wanted: Option<&str>) -> bool {
    components.next() == wanted
}

/// Whether the path is /etc/motd.
fn is_motd(path: &Path) -> bool {
    let mut components = path.components();
    let is_named = is_next(&mut components, Some("etc")) && is_next(&mut components, Some("motd"));
    is_named && is_next(&mut components, None)
}

/// Whether the components are those of the directory, and motd.
fn ends_in_motd(components: &Components<'_>, directory: &Components<'_>) -> bool {
    match components.split_last() {
        None => false,
        Some((before, last)) => before.is_same(directory) && last == "motd",
    }
}

/// Whether the path ends in motd, and begins with the directory, which is none of its own.
fn ends_in(path: &Path, directory: &Path) -> bool {
    let (components, of_directory) = (path.components(), directory.components());
    let is_other = !components.is_same(&of_directory) && !path.is_same(directory);
    is_other && path.is_same(path) && ends_in_motd(&components, &of_directory)
}

/// Whether the path is /etc/motd once it has grown, and ends in its directory, which is the root at first.
fn grows(path: &mut Path, directory: &mut Path) -> bool
    requires path { path.old ≡ [] }
    requires directory { directory.old ≡ [] }
{
    let are_roots = path.components().is_empty() && directory.components().split_last().is_none();
    let is_motd = becomes_motd(path) && is_motd(path);
    are_roots && is_motd && directory.push("etc").is_ok() && ends_in(path, directory)
}

fn a_path_ends_in_its_directory(alloc: Global) -> bool {
    grows(&mut Path::root(alloc), &mut Path::root(alloc))
}

#[test]
fn paths(rt: HostRuntime) {
    wants(&rt, "a path", a_path_ends_in_its_directory(rt.alloc()));
}
