//! Readers of labels.
#![tactic(auto, using(crate::proofs::Readers::next_read))]

ghost use Rattle.std.specs.Prelude.{◌≡◌};
ghost use Rattle.mf_hist.specs.Lines.{parts_shown};
ghost use Rattle.mf_hist.specs.Reading.{IsRead, next_by, label_in_word};

use crate::Words;
use crate::unread::Unread;
use mf_cred::ArrayVec;
use mf_elem::{Request, SLOTS};
use mf_labeltext::read_request;
use mf_plan::LabelPart;
use mf_spelling::parts_asked;

/// The parts of a label; a dash for none.
pub fn label(words: &mut Words) -> Result<ArrayVec<LabelPart, SLOTS>, Unread>
    ensures { IsRead (λ parts. (parts, words.new)) result (next_by label_in_word words.old) }
{
    match words.next() {
        None => Err(Unread::NoLine),
        Some(word) => label_in_word(word),
    }
}

#[tactic(auto, unfolding(crate::specs::Reading::label_in_word))]
fn label_in_word(word: &str) -> Result<ArrayVec<LabelPart, SLOTS>, Unread>
    ensures { IsRead (λ parts. parts) result (label_in_word word.now) }
{
    if word == "-" {
        return Ok(ArrayVec::new());
    }
    match read_request(word) {
        Ok(request) => Ok(parts_shown(&request)),
        Err(_) => Err(Unread::NoLine),
    }
}

/// What is asked of each policy, in the order in which labels are shown.
fn parts_shown(request: &Request) -> ArrayVec<LabelPart, SLOTS>
    ensures { result ≡ parts_shown request.now }
{
    let asked = parts_asked(request);
    let mut parts = ArrayVec::new();
    for part in asked.as_slice() {
        parts.push(LabelPart {
            module: part.0,
            value: part.1,
        });
    }
    parts
}
