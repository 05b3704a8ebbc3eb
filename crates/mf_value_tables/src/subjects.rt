//! Credentials, and what policies are asked.

use crate::asked::{holds, wants};
use mf_cred::{Cred, Duplicate};
use mf_elem::Request;
use mf_item::{CheckOp, Item, SubjectView};
use std::alloc::{AllocError, Global};

fn groups_of_a_credential() -> bool {
    let mut cred = Cred::default();
    cred.groups.push(47);
    let copy = cred.copy();
    let in_both = copy.in_group(0) && copy.in_group(47) && !copy.in_group(48);
    let is_copy = copy.same(&cred) && !copy.same(&Cred::default());
    copy.is_root() && in_both && is_copy
}

/// The credential of root with this saved uid, and with this group behind group 0.
fn with_saved(svuid: u32, group: u32) -> Cred {
    let mut cred = Cred::default();
    cred.svuid = svuid;
    cred.groups.push(group);
    cred
}

/// Whether a copy has the saved uid, and credentials differ that do by their saved uids alone, or by their last group.
fn credentials_that_differ() -> bool {
    let cred = with_saved(9, 47);
    let is_copied = cred.copy().svuid == 9;
    is_copied && !cred.same(&with_saved(0, 47)) && !cred.same(&with_saved(9, 48))
}

/// Whether the item is that of a relabel by this subject, and has no other part.
fn is_relabel(item: &Item, subject: &SubjectView) -> bool {
    let has_parts = item.request().is_some() && item.subject().same(subject);
    let has_others = item.object().is_some() || item.privilege().is_some() || item.port().is_some();
    has_parts && !has_others && item.op().name() == "cred_relabel"
}

fn an_item_has_its_parts() -> bool {
    let (subject, request) = (SubjectView::default(), Request::none());
    let op = CheckOp::CredRelabel;
    let item = Item::new(op, &subject, None, Some(&request), None, None);
    is_relabel(&item, &subject)
}

fn operations_by_name(alloc: Global) -> Result<bool, AllocError> {
    let shown = format!(in alloc; "{}", CheckOp::KldLoad)?;
    let is_relabel = CheckOp::from_name("cred_relabel") == Some(CheckOp::CredRelabel);
    let is_write = CheckOp::from_name("pipe_write") == Some(CheckOp::PipeWrite);
    Ok(is_relabel && is_write && shown.as_str() == "kld_load")
}

#[test]
fn credentials_and_items(rt: HostRuntime) {
    wants(&rt, "groups", groups_of_a_credential());
    wants(&rt, "credentials", credentials_that_differ());
    wants(&rt, "an item", an_item_has_its_parts());
    wants(&rt, "operations", holds(operations_by_name(rt.alloc())));
}
