//! What a relabel makes of the sources.
ghost use Rattle.std.specs.Prelude.{◌≡◌, ◌<◌, None, OnOk};
ghost use Rattle.std.specs.Option.{option_zip};
ghost use Rattle.mf_elem.specs.declared.label.TheConstants.{SLOTS};
ghost use Rattle.mf_perform.specs.OneCall.{after_reply};
ghost use Rattle.mf_flow.specs.Rows.{where_done, rows_given};
ghost use Rattle.mf_flow.specs.Sources.{has_element as has_element_for};

use crate::effective::element_at;
use crate::set_list::SetList;
use mf_elem::Request;
use mf_errno::Module;
use mf_objects::{Id, Objects};
use mf_plan::{Found, Outline, Reply};
use mf_policy::range_asked;
use std::alloc::{AllocError, Global};

/// What a call with that reply asks of whose label. One that isn't done asks nothing.
pub fn asked_of(reply: &Reply, outline: &Outline) -> Option<(Id, Request)>
    ensures { result ≡ after_reply reply.now None
        (option_zip outline.now.found.target outline.now.found.request) }
{
    match reply {
        Reply::Ok(_) => outline.found.target.zip(outline.found.request),
        Reply::Denied { .. } | Reply::Refused(_) => None,
    }
}

/// Starts the sources of an entity anew, where its relabel is done and gives it an effective element by the module's policy.
pub fn give(
    alloc: Global,
    slot: u8,
    module: Module,
    objects: &Objects,
    found: &Found,
    is_done: bool,
    sets: &mut SetList,
) -> Result<(), AllocError>
    requires { slot < SLOTS }
    ensures { OnOk result (sets.new ≡ rows_given slot «module» objects.now
        (where_done is_done (option_zip found.now.target found.now.request)) sets.old) }
{
    match (is_done, found.target, &found.request) {
        (true, Some(id), Some(request)) if has_element(module, request) => {
            let element = element_at(objects, slot, id.number());
            sets.restart(alloc, id.number(), element)
        }
        _ => Ok(()),
    }
}

/// Whether the request has an effective element for the module's policy.
pub fn has_element(module: Module, request: &Request) -> bool
    ensures { result ≡ has_element_for «module» request.now }
{
    match range_asked(module, request) {
        None => false,
        Some(label) => label.effective.is_some(),
    }
}
