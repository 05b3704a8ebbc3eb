//! Reading what a label text asks for.
ghost use Rattle.std.specs.Prelude.{◌≡◌, ◌↔◌, ◌+◌, ◌^◌, ◌<◌, ◌==◌, ◌||◌, length, Ok, Err, IfOk};
ghost use Rattle.std.specs.Char.{is_ascii_digit, is_ascii_lowercase};
ghost use Rattle.std.specs.List.{list_all};
ghost use Rattle.mf_elem.specs.Bounds.{IsRequest};
ghost use Rattle.mf_elem.specs.declared.label.Request.{Request};
ghost use Rattle.mf_labeltext.specs.LabelGrammar.{SpellsRequest};
ghost use Rattle.mf_labeltext.specs.Reading.{is_policy_name, with_part, element_in, request_in};
ghost use Rattle.mf_labeltext.specs.FirstFault.{IsFirstLabelFault};
ghost use Rattle.mf_labeltext.specs.declared.fault.LabelFault.{LabelFault};

use crate::LabelFault;
use crate::splitting::split_once;
use crate::values::{read_label, read_partition, read_plain};
use mf_elem::Request;

/// What a label text of maclabel(7) asks for. Of several elements of one policy the last one counts, whole, though each has to be
/// well formed. An element of any other policy sets `other`, whatever its value. The fault is that of the first faulty element.
pub fn read_request(text: &str) -> Result<Request, LabelFault>
    ensures spells { (request : Request) → (result ≡ Ok request) ↔ SpellsRequest text.now request }
    ensures fault { (fault : LabelFault) → (result ≡ Err fault) ↔ IsFirstLabelFault text.now fault }
    ensures formed { IfOk result IsRequest }
    ensures value { result ≡ request_in text.now }
{
    read_elements(text)
}

#[tactic(auto, unfolding(crate::specs::Reading::request_in))]
fn read_elements(text: &str) -> Result<Request, LabelFault>
    ensures { result ≡ request_in text.now }
{
    let mut request = Request::none();
    let mut rest = text;
    while let Some((element, after)) = split_once(rest, ',') {
        request = match read_element(text.len() - rest.len(), &request, element) {
            Ok(next) => next,
            Err(fault) => return Err(fault),
        };
        rest = after;
    }
    read_element(text.len() - rest.len(), &request, rest)
}

/// The request with the element added. The element's first byte is byte `place` of the text.
#[tactic(auto, unfolding(crate::specs::Reading::element_in))]
fn read_element(place: usize, request: &Request, element: &str) -> Result<Request, LabelFault>
    requires { place + length element.now < 2 ^ 64 }
    ensures { result ≡ element_in place request.now element.now }
{
    if element.is_empty() {
        return Err(LabelFault::EmptyElement(place));
    }
    match split_once(element, '/') {
        Some((name, value)) if is_policy_name(name) => {
            let next = with_part(name, value, request);
            next.ok_or(LabelFault::BadValue(place + name.len() + 1))
        }
        _ => Err(LabelFault::NoSlash(place)),
    }
}

/// The request with the element of this name and value added.
#[tactic(auto, unfolding(crate::specs::Reading::with_part))]
fn with_part(name: &str, value: &str, request: &Request) -> Option<Request>
    ensures { result ≡ with_part name.now value.now request.now }
{
    let mut next = *request;
    if name == "biba" {
        next.biba = Some(read_label(value)?);
    } else if name == "mls" {
        next.mls = Some(read_label(value)?);
    } else if name == "lomac" {
        next.lomac = Some(read_plain(value)?);
    } else if name == "partition" {
        next.partition = Some(read_partition(value)?);
    } else {
        next.other = true;
    }
    Some(next)
}

fn is_policy_name_byte(byte: u8) -> bool
    ensures { result ≡ (is_ascii_lowercase byte || (is_ascii_digit byte || byte == 95)) }
{
    matches!(byte, b'a'..=b'z' | b'0'..=b'9' | b'_')
}

fn is_policy_name(text: &str) -> bool
    ensures { result ≡ is_policy_name text.now }
{
    !text.is_empty() && are_name_bytes(text.as_bytes())
}

fn are_name_bytes(text: &[u8]) -> bool
    ensures { result ≡ list_all
        (λ c. is_ascii_lowercase c || (is_ascii_digit c || c == 95)) text.now }
{
    text.iter().all(|byte| is_policy_name_byte(*byte))
}
