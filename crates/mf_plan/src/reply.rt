//! Replies to calls.
ghost use Rattle.std.specs.Prelude.{◌≡◌, IfOk};
ghost use Rattle.mf_plan.specs.declared.reply.Payload.TheVariants as payloads;

use mf_cred::{ArrayVec, FileView};
use mf_elem::LabelValue;
use mf_errno::{Errno, Module};
use mf_item::CheckOp;
use mf_names::{Listing, NameList};
use mf_objects::Head;
use mf_policy::MOST_LISTED;
use mf_rule::RuleList;
use std::alloc::{AllocError, Global};

/// A loaded module, and the number of its label slot where it has one.
#[derive(Clone, Copy, Default)]
pub struct Loaded {
    pub module: Module,
    pub slot: Option<u8>,
}

/// What the label of an entity says of one policy.
#[derive(Clone, Copy, Default)]
pub struct LabelPart {
    pub module: Module,
    pub value: LabelValue,
}

/// What a call that is done hands back.
#[derive(Drop)]
pub enum Payload {
    /// Nothing.
    None,
    /// What was read: how many bytes, and the first 64.
    Head(Head),
    /// How many bytes there are.
    Size(u32),
    /// The number under which a file was opened.
    Fd(u32),
    /// The attributes, and the size in bytes, which is 0 for a directory.
    Stat(FileView, u32),
    /// The number of all entries, and the names of the first 16 in byte order.
    Names { count: u32, first: NameList },
    /// The parts of a label, one for each listed policy that labels such an entity, in the order of the modules.
    Label(Listing<LabelPart>),
    /// The loaded modules in walk order.
    Modules(ArrayVec<Loaded, MOST_LISTED>),
    /// The rules about files.
    Rules(RuleList),
    /// The number that the rule got.
    Rule(u32),
    /// The label slot that the module got, where it wants one.
    Slot(Option<u8>),
}

impl Payload {
    /// A label of these parts. It lies in memory of its own, since replies are kept, and few are labels.
    pub fn label(alloc: Global, parts: &[LabelPart]) -> Result<Payload, AllocError>
        ensures { IfOk result (λ payload. payload ≡ payloads.Label parts.now) }
    {
        Ok(Payload::Label(Listing::from_vec(parts.to_vec(alloc)?)))
    }
}

/// The reply to a call.
#[derive(Drop)]
pub enum Reply {
    /// The call is done, and hands this back.
    Ok(Payload),
    /// A check was denied: the errno, the operation, the number of the check from 1, and the policy that decided it. No
    /// policy decides a check of a privilege.
    Denied {
        errno: Errno,
        op: CheckOp,
        item: u8,
        by: Option<Module>,
    },
    /// The framework itself refused the call.
    Refused(Errno),
}
