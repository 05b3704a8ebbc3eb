//! The three policies that go by an order of elements.
ghost use Rattle.std.specs.Prelude.{◌≡◌, option_copied};
ghost use Rattle.mf_policy.specs.Answer as answers;
ghost use Rattle.mf_answers.specs.Orders.{policy_of};

use mf_elem::{Elem, RangeLabel, Request, dominates};

/// The policies that go by an order of elements.
#[derive(Clone, Copy)]
pub enum Order {
    /// Of integrity: one reads up and writes down.
    Biba,
    /// Of confidentiality: one reads down and writes up.
    Mls,
    /// Of integrity by low watermark: one reads everything and writes down.
    Lomac,
}

/// Whether a subject of one element may observe an object of another.
pub fn may_observe(order: Order, subject: &Elem, object: &Elem) -> bool
    ensures { result ≡ (policy_of order).may_observe subject.now object.now }
{
    match order {
        Order::Biba => dominates(object, subject),
        Order::Mls => dominates(subject, object),
        Order::Lomac => true,
    }
}

/// Whether a subject of one element may modify an object of another.
pub fn may_modify(order: Order, subject: &Elem, object: &Elem) -> bool
    ensures { result ≡ (policy_of order).may_modify subject.now object.now }
{
    match order {
        Order::Biba | Order::Lomac => dominates(subject, object),
        Order::Mls => dominates(object, subject),
    }
}

/// The policy's part of a request; nothing where there is no request, or no part.
pub fn part_of(order: Order, request: Option<&Request>) -> RangeLabel
    ensures { result ≡ answers.part_of (policy_of order) (option_copied request.entry) }
{
    match request {
        None => nothing(),
        Some(request) => part(order, request).unwrap_or(nothing()),
    }
}

fn part(order: Order, request: &Request) -> Option<RangeLabel>
    ensures { result ≡ (policy_of order).part request.now }
{
    match order {
        Order::Biba => request.biba,
        Order::Mls => request.mls,
        Order::Lomac => request.lomac.map(RangeLabel::effective),
    }
}

/// A label with nothing in it.
fn nothing() -> RangeLabel
    ensures { result ≡ answers.nothing }
{
    RangeLabel {
        range: None,
        effective: None,
    }
}
