//! The label text that was read last.
ghost use Rattle.std.specs.Prelude.{◌≡◌, ◌↔◌, ◌≤◌, ℕ, List, [], length, IfSome, IsSome, IsTrue};
ghost use Rattle.std.specs.Result.{result_ok};
ghost use Rattle.mf_labeltext.specs.Reading.{request_in};
ghost use Rattle.mf_objects.specs.declared.id.Id.{Id};
ghost use Rattle.mf_plan.specs.declared.state.State.{State};
ghost use Rattle.mf_plan.specs.LastLabel as spec;
ghost use Rattle.mf_plan.specs.Rows.{about_of};

use mf_calls::Call;
use mf_cred::ArrayVec;
use mf_elem::Request;
use mf_labeltext::read_request;
use std::marker::Model;

/// The longest label text that is kept, in bytes.
const MOST_KEPT: usize = 64;

/// The label text that was read last, with what it asks for. The plan of a relabel is made more than once, with one text: that is
/// compared then, and not read again. Contracts see the text, which is empty at first: that can't be read either.
#[derive(Drop)]
pub struct LastLabel {
    text: ArrayVec<u8, MOST_KEPT>,
    request: Option<Request>,
}

impl Model for LastLabel {
    ghost use Rattle.std.specs.Prelude.{◌≡◌, ℕ, List};
    ghost use Rattle.std.specs.Result.{result_ok};
    ghost use Rattle.mf_labeltext.specs.Reading.{request_in};

    ghost Value = { List ℕ };

    ghost view = { λ l. l.text };

    ghost invariant = { λ l. l.request ≡ result_ok (request_in l.text) };
}

impl LastLabel {
    /// No text yet.
    pub fn new() -> LastLabel
        ensures { result ≡ [] }
    {
        LastLabel {
            text: ArrayVec::new(),
            request: None,
        }
    }

    /// Keeps the label text of the call, where it has one. One that is too long isn't kept.
    pub fn keep(&mut self, call: &Call)
        ensures { (state : State) → (task : List ℕ) → (me : Id)
            → self.new ≡ spec.kept_after self.old (about_of state task me call.now).place }
    {
        match call {
            Call::Setpmac(label)
            | Call::Setfmac(label, _)
            | Call::Setpipemac(label, _)
            | Call::Setsockmac(label, _) => self.keep_text(label.as_str()),
            _ => {}
        }
    }

    fn keep_text(&mut self, text: &str)
        ensures { self.new ≡ spec.kept_with self.old text.now }
    {
        if text.len() <= MOST_KEPT && self.kept(text).is_none() {
            self.replace(text);
        }
    }

    /// Keeps this text in place of the last one.
    fn replace(&mut self, text: &str)
        requires { length text.now ≤ MOST_KEPT }
        ensures { self.new ≡ text.now }
    {
        self.text = copy_of(text.as_bytes());
        self.request = read_request(text).ok();
    }

    /// What the label text asks for, if it is the one that was kept: `Some(&None)` where that can't be read.
    pub(crate) fn kept(&self, text: &str) -> Option<&Option<Request>>
        ensures read { IfSome result (λ read. read.now ≡ result_ok (request_in text.now)) }
        ensures found { IsSome result ↔ (self.now ≡ text.now) }
    {
        if is_same(self.text.as_slice(), text.as_bytes()) {
            Some(&self.request)
        } else {
            None
        }
    }
}

/// Whether the two are one text. Label texts are short, and std's `==` is made for long slices.
fn is_same(kept: &[u8], text: &[u8]) -> bool
    ensures { IsTrue result ↔ (kept.now ≡ text.now) }
{
    if kept.len() != text.len() {
        return false;
    }
    for place in 0..kept.len() {
        if kept[place] != text[place] {
            return false;
        }
    }
    true
}

fn copy_of(bytes: &[u8]) -> ArrayVec<u8, MOST_KEPT>
    requires { length bytes.now ≤ MOST_KEPT }
    ensures { result ≡ bytes.now }
{
    let mut copy = ArrayVec::new();
    for byte in bytes {
        copy.push(*byte);
    }
    copy
}
