//! Errors, modules and privileges by number and by name, and which of two answers counts.

use crate::asked::{holds, wants};
use mf_errno::{Errno, Module, Priv, select};
use std::alloc::{AllocError, Global};

/// Errors with their numbers and names in errno(2).
const ERRORS: &[(Errno, u32, &str)] = &[
    (Errno::Success, 0, "ok"),
    (Errno::Ebadf, 9, "EBADF"),
    (Errno::Edeadlk, 11, "EDEADLK"),
    (Errno::Emfile, 24, "EMFILE"),
    (Errno::Eagain, 35, "EAGAIN"),
    (Errno::Enobufs, 55, "ENOBUFS"),
    (Errno::Enotempty, 66, "ENOTEMPTY"),
];

fn numbers_of_errno_2() -> bool {
    let mut holds = true;
    for (errno, number, name) in ERRORS {
        holds &= errno.number() == *number && errno.name() == *name;
    }
    holds
}

fn is_error(name: &str, wanted: Option<Errno>) -> bool {
    Errno::from_name(name) == wanted
}

fn is_module(name: &str, wanted: Option<Module>) -> bool {
    Module::from_name(name) == wanted
}

fn names_lead_back() -> bool {
    let errors = is_error(Errno::Enotdir.name(), Some(Errno::Enotdir)) && is_error("enotdir", None);
    let modules = is_module(Module::Bsdextended.name(), Some(Module::Bsdextended))
        && is_module("mac_lomac", Some(Module::Lomac))
        && is_module("biba", None);
    errors && modules && Priv::from_name(Priv::KldUnload.name()) == Some(Priv::KldUnload)
}

fn names_are_shown(alloc: Global) -> Result<bool, AllocError> {
    let shown = format!(in alloc; "{} {} {}", Errno::Success, Module::Mls, Priv::KldLoad)?;
    Ok(shown.as_str() == "ok mac_mls KLD_LOAD")
}

fn every_error_by_its_name() -> bool {
    let mut holds = true;
    for errno in Errno::all() {
        holds &= is_error(errno.name(), Some(*errno));
    }
    holds
}

/// A newer and an older answer, and the one that is selected.
const ANSWERS: &[(Errno, Errno, Errno)] = &[
    (Errno::Eperm, Errno::Eacces, Errno::Eacces),
    (Errno::Edeadlk, Errno::Einval, Errno::Edeadlk),
    (Errno::Ebusy, Errno::Eperm, Errno::Eperm),
    (Errno::Ebusy, Errno::Enomem, Errno::Ebusy),
    (Errno::Success, Errno::Enomem, Errno::Enomem),
    (Errno::Success, Errno::Success, Errno::Success),
];

fn precedence_of_two_answers() -> bool {
    let mut holds = true;
    for (newer, older, selected) in ANSWERS {
        holds &= select(*newer, *older) == *selected;
    }
    holds
}

#[test]
fn errors_modules_and_privileges(rt: HostRuntime) {
    wants(&rt, "numbers of errno(2)", numbers_of_errno_2());
    wants(&rt, "names lead back", names_lead_back());
    wants(&rt, "names are shown", holds(names_are_shown(rt.alloc())));
    wants(&rt, "every error by its name", every_error_by_its_name());
    wants(&rt, "two answers", precedence_of_two_answers());
}
