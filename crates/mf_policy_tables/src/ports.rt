//! mac_seeotheruids and mac_portacl by themselves.
ghost use Rattle.mf_policy.specs.IsChange.{IsChange};

use crate::asked::{holds, is_answered, object, wants};
use crate::settings::Asked::{Ports, Sights};
use crate::settings::{Acl, Asked, See, change_of, has};
use mf_cred::{ArrayVec, Cred};
use mf_elem::{LabelValue, SLOTS};
use mf_errno::Errno::{self, Enoent, Eperm, Esrch, Success};
use mf_errno::Module;
use mf_item::{CheckOp, Item, Kind, SubjectView};
use mf_policy::{Change, Policy, Spec};
use mf_ports::{Portacl, Seeotheruids};
use std::alloc::{AllocError, Global};

/// The settings of mac_seeotheruids(4) when it is loaded.
const SEE: See = (false, false, 0, true);

/// The settings of mac_portacl(4) when it is loaded.
const ACL: Acl = ("", 1023, true, true);

/// A subject: its effective and its real uid, and its groups.
type User = [u32; 4];

/// The answer to a user who does so to a process of this real uid and first group, or binds a socket to this port.
fn answer<P: Policy>(
    policy: &P,
    op: CheckOp,
    user: User,
    process: (u32, u32),
    port: Option<(bool, u16)>,
) -> Errno {
    let mut subject = SubjectView::default();
    subject.cred = cred_of(user);
    let mut object = object(Kind::Process, [LabelValue::Unset; SLOTS]);
    object.file.uid = process.0;
    object.file.gid = process.1;
    policy.check(0, &Item::new(op, &subject, Some(&object), None, None, port))
}

fn cred_of(user: User) -> Cred {
    let [uid, ruid, first, second] = user;
    let mut groups = ArrayVec::one(first);
    groups.push(second);
    Cred {
        uid,
        ruid,
        svuid: uid,
        groups,
    }
}

/// A name, settings, a user, another process, and whether the user sees it, by what mac_seeotheruids(4) says of the settings.
type Sight = (&'static str, See, User, (u32, u32), Errno);

const SIGHTS: &[Sight] = &[
    ("its own", SEE, [1, 1, 9, 5], (1, 7), Success),
    ("another's", SEE, [1, 1, 9, 5], (2, 9), Esrch),
    ("by real uid", SEE, [2, 1, 9, 5], (1, 7), Success),
    ("by effective uid", SEE, [2, 1, 9, 5], (2, 9), Esrch),
    ("root", SEE, [0, 1, 9, 5], (2, 7), Success),
    ("real uid of root", SEE, [1, 0, 9, 5], (2, 7), Esrch),
    ("root as all", NOBODY, [0, 0, 0, 5], (2, 7), Esrch),
    ("primary group", PRIMARY, [1, 1, 9, 5], (2, 9), Success),
    ("another group", PRIMARY, [1, 1, 9, 5], (2, 5), Esrch),
    ("first member", SPECIFIC, [1, 1, 5, 9], (2, 7), Success),
    ("member", SPECIFIC, [1, 1, 9, 5], (2, 7), Success),
    ("no member", SPECIFIC, [1, 1, 9, 9], (2, 5), Esrch),
    ("its uid", SPECIFIC, [5, 5, 9, 9], (2, 7), Esrch),
    ("switched off", OFF, [1, 1, 9, 5], (2, 7), Esrch),
];

/// Root sees as others do.
const NOBODY: See = (false, false, 0, false);

/// Those of the primary group are seen.
const PRIMARY: See = (true, false, 0, true);

/// The members of group 5 see all.
const SPECIFIC: See = (false, true, 5, true);

/// They would, but for the switch.
const OFF: See = (false, false, 5, true);

/// Whether the policy takes these settings.
fn takes<P: Policy>(alloc: Global, policy: &mut P, asked: &Asked) -> bool {
    is_answered(alloc, policy, &change_of(asked), Success)
}

/// Whether the user sees the process so with these settings.
fn is_seen(alloc: Global, policy: &mut Seeotheruids, sight: &Sight) -> bool {
    let (_name, settings, user, process, errno) = *sight;
    let is_set = takes(alloc, policy, &Sights(settings));
    is_set && answer(policy, CheckOp::ProcVisible, user, process, None) == errno
}

/// The name of the first row that isn't so, or none. Each row's settings take the place of those of the row before.
fn wrong_sight(alloc: Global, policy: &mut Seeotheruids) -> &'static str {
    for sight in SIGHTS {
        if !is_seen(alloc, policy, sight) {
            return sight.0;
        }
    }
    ""
}

/// A name, settings, a user, a port of TCP or else of UDP, and whether the user may bind a socket to it, by what mac_portacl(4) says of
/// the settings.
type Binding = (&'static str, Acl, User, (bool, u16), Errno);

const BINDINGS: &[Binding] = &[
    ("the last", ACL, [1, 1, 9, 5], (true, 1023), Eperm),
    ("above it", ACL, [1, 1, 9, 5], (true, 1024), Success),
    ("any", ACL, [1, 1, 9, 5], (false, 0), Success),
    ("no more", ACL, [1, 1, 9, 5], (false, 1), Eperm),
    ("root", ACL, [0, 1, 9, 5], (true, 80), Success),
    ("real uid of root", ACL, [1, 0, 0, 5], (true, 80), Eperm),
    ("all guarded", ALL, [1, 1, 9, 5], (true, 65_535), Eperm),
    ("not any", ALL, [1, 1, 9, 5], (true, 0), Eperm),
    ("root as all", ALL, [0, 0, 0, 5], (true, 80), Eperm),
    ("root by a rule", ALL, [0, 0, 0, 5], (true, 22), Success),
    ("www", RULES, [80, 80, 80, 80], (true, 80), Success),
    ("www by udp", RULES, [80, 80, 80, 80], (false, 80), Eperm),
    ("pop3 of www", RULES, [80, 80, 80, 80], (true, 110), Eperm),
    ("pop3", RULES, [1001, 1001, 9, 5], (true, 110), Success),
    ("pop3s", RULES, [1001, 1001, 9, 5], (true, 995), Success),
    ("no www", RULES, [1001, 1001, 9, 5], (true, 80), Eperm),
    ("by real uid", RULES, [1, 1001, 9, 5], (true, 110), Eperm),
    ("a member", DOMAIN, [1, 1, 9, 53], (false, 53), Success),
    ("by tcp", DOMAIN, [1, 1, 9, 53], (true, 53), Eperm),
    ("no member", DOMAIN, [1, 1, 9, 5], (false, 53), Eperm),
    ("by uid", DOMAIN, [53, 53, 9, 5], (false, 53), Eperm),
];

/// All ports are guarded, port 0 too, and root has a rule as others do.
const ALL: Acl = ("uid:0:tcp:22", 65_535, false, false);

/// The rules of the FreeBSD Handbook's section MAC Port Access Control List.
const RULES: Acl = (
    "uid:80:tcp:80,uid:1001:tcp:110,uid:1001:tcp:995",
    1023,
    true,
    true,
);

/// A rule for a group.
const DOMAIN: Acl = ("gid:53:udp:53", 1023, true, true);

/// Whether the user may bind a socket to the port so with these settings.
fn is_bound(alloc: Global, policy: &mut Portacl, binding: &Binding) -> bool {
    let (_name, settings, user, port, errno) = *binding;
    let is_set = takes(alloc, policy, &Ports(settings));
    is_set && answer(policy, CheckOp::SocketBind, user, (2, 7), Some(port)) == errno
}

/// The name of the first row that isn't so, or none. Each row's settings take the place of those of the row before.
fn wrong_binding(alloc: Global, policy: &mut Portacl) -> &'static str {
    for binding in BINDINGS {
        if !is_bound(alloc, policy, binding) {
            return binding.0;
        }
    }
    ""
}

/// Operations, each with the answers of mac_seeotheruids and of mac_portacl to a user who sees nobody and binds no port.
const OPERATIONS: &[(CheckOp, Errno, Errno)] = &[
    (CheckOp::ProcVisible, Esrch, Success),
    (CheckOp::ProcSignal, Esrch, Success),
    (CheckOp::ProcDebug, Esrch, Success),
    (CheckOp::ProcSched, Esrch, Success),
    (CheckOp::SocketVisible, Success, Success),
    (CheckOp::SocketBind, Success, Eperm),
    (CheckOp::VnodeExec, Success, Success),
    (CheckOp::KldLoad, Success, Success),
    (CheckOp::Priv, Success, Success),
];

/// The policy's answer to a user who sees nobody and binds no port.
fn answer_to<P: Policy>(policy: &P, op: CheckOp) -> Errno {
    answer(policy, op, [1, 1, 9, 5], (2, 7), Some((true, 80)))
}

fn operations_that_are_tested(see: &Seeotheruids, acl: &Portacl) -> bool {
    let mut holds = true;
    for (op, esrch, eperm) in OPERATIONS {
        holds &= answer_to(see, *op) == *esrch && answer_to(acl, *op) == *eperm;
    }
    holds
}

/// Whether the policy has the settings once they are asked for, and the initial ones once it is put back.
fn is_put_back<P: Policy>(alloc: Global, policy: &mut P, asked: &Asked, initial: &Asked) -> bool {
    let is_taken = takes(alloc, policy, asked);
    let is_set = has(policy, asked) && !has(policy, initial);
    policy.reset();
    is_taken && is_set && has(policy, initial)
}

/// Whether both policies are put back so.
fn are_put_back(alloc: Global, see: &mut Seeotheruids, acl: &mut Portacl) -> bool {
    is_put_back(alloc, see, &Sights(SPECIFIC), &Sights(SEE))
        && is_put_back(alloc, acl, &Ports(RULES), &Ports(ACL))
}

/// Modules, whose specs come as settings of mac_portacl or else of mac_seeotheruids, with the answers of mac_seeotheruids and of
/// mac_portacl.
const CHANGES: &[(Module, bool, (Errno, Errno))] = &[
    (Module::Seeotheruids, false, (Success, Enoent)),
    (Module::Seeotheruids, true, (Enoent, Enoent)),
    (Module::Portacl, false, (Enoent, Enoent)),
    (Module::Portacl, true, (Enoent, Success)),
    (Module::Biba, false, (Enoent, Enoent)),
    (Module::Biba, true, (Enoent, Enoent)),
    (Module::Bsdextended, false, (Enoent, Enoent)),
    (Module::Bsdextended, true, (Enoent, Enoent)),
];

/// Whether both policies answer the change so.
fn both_answer(alloc: Global, change: &Change, wanted: (Errno, Errno)) -> bool
    requires { IsChange change.now }
{
    let (see, acl) = (&mut Seeotheruids::new(), &mut Portacl::new());
    is_answered(alloc, see, change, wanted.0) && is_answered(alloc, acl, change, wanted.1)
}

/// The change to the spec, as settings of mac_portacl or else of mac_seeotheruids.
fn change_to(spec: Spec, is_port: bool) -> Change
    ensures { IsChange result }
{
    if is_port {
        Change::Port(spec)
    } else {
        Change::See(spec)
    }
}

/// Whether they answer so to the module's spec.
fn answer_to_module(
    alloc: Global,
    module: Module,
    is_port: bool,
    wanted: (Errno, Errno),
) -> Result<bool, AllocError> {
    let spec = Spec::fresh(alloc, module)?;
    Ok(both_answer(alloc, &change_to(spec, is_port), wanted))
}

fn settings_of_another_module(alloc: Global) -> bool {
    let mut is_so = true;
    for (module, is_port, wanted) in CHANGES {
        is_so &= holds(answer_to_module(alloc, *module, *is_port, *wanted));
    }
    is_so
}

#[test]
fn sights_and_ports(rt: HostRuntime) {
    let alloc = rt.alloc();
    let sight = wrong_sight(alloc, &mut Seeotheruids::new());
    wants(&rt, sight, sight.is_empty());
    let binding = wrong_binding(alloc, &mut Portacl::new());
    wants(&rt, binding, binding.is_empty());
    let are_tested = operations_that_are_tested(&Seeotheruids::new(), &Portacl::new());
    wants(&rt, "operations", are_tested);
    let both = are_put_back(alloc, &mut Seeotheruids::new(), &mut Portacl::new());
    wants(&rt, "put back", both);
    let is_other = settings_of_another_module(alloc);
    wants(&rt, "another module", is_other);
}
