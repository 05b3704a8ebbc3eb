//! Partitions: a subject in a partition sees what is in it, and a subject in none sees everything.
ghost use Rattle.std.specs.Prelude.{◌≡◌, ◌<◌, ◌==◌, ◌||◌, option_and_then, option_copied, unwrap_or};
ghost use Rattle.mf_errno.specs.declared.module.Module.TheVariants as modules;
ghost use Rattle.mf_policy.specs.Answer as spec;
ghost use Rattle.mf_policy.specs.Modules.{number_asked, partition_of};
ghost use Rattle.mf_policy.specs.Operations.{row_of};
ghost use Rattle.mf_policy.specs.declared.spec.Spec.TheVariants as means;

use mf_cred::Cred;
use mf_elem::{LabelValue, Request, SLOTS};
use mf_errno::{Errno, Module, Priv};
use mf_item::{CheckOp, Item, ObjectView};
use mf_policy::{
    Change, Changed, LoadFlags, PartitionTest, Policy, Spec, errno_unless, flags_of, number_asked,
    row_of, wants_slot,
};
use std::alloc::{AllocError, Global};

/// The partition policy of mac_partition(4): processes and sockets have a partition's number, where 0 is no partition,
/// and a process in a partition doesn't see what is outside it. In FreeBSD a socket's partition is that of its
/// credential; that sockets have a partition of their own is this model's choice. It has no settings.
#[derive(Debug, Drop)]
pub struct Partition;

impl Partition {
    /// The policy in its initial state.
    pub fn new() -> Partition
        ensures { ⟦<Partition as Policy>⟧.spec result ≡ means.Partition }
    {
        Partition
    }
}

impl Policy for Partition {
    ghost spec = { λ _. means.Partition };

    fn module(&self) -> Module {
        Module::Partition
    }

    fn flags(&self) -> LoadFlags {
        flags_of(Module::Partition)
    }

    fn wants_slot(&self) -> bool {
        wants_slot(Module::Partition)
    }

    fn same(&self, other: &Spec) -> bool {
        matches!(other, Spec::Partition)
    }

    fn check(&self, slot: u8, item: &Item) -> Errno {
        let subject = number(&item.subject().label[slot as usize]);
        let object = object_number(item.object(), slot);
        let wanted = wanted_number(item.request());
        verdict(item.op(), &item.subject().cred, subject, object, wanted)
    }

    fn grant(&self, _cred: &Cred, _privilege: Priv) -> bool {
        false
    }

    fn change(&mut self, _alloc: Global, _change: &Change) -> Result<Changed, AllocError> {
        Ok(Changed::no_setting())
    }

    fn reset(&mut self) {}
}

fn verdict(op: CheckOp, cred: &Cred, subject: u32, object: u32, wanted: u32) -> Errno
    ensures { result ≡ spec.partition_verdict (row_of op).partition cred.now subject object wanted }
{
    match row_of(op).partition {
        PartitionTest::Agree(errno) => errno_unless(agree(subject, object), errno),
        PartitionTest::Join => errno_unless(may_join(cred, wanted), Errno::Eperm),
        PartitionTest::Ignore => Errno::Success,
    }
}

fn agree(subject: u32, object: u32) -> bool
    ensures { result ≡ (subject == 0 || subject == object) }
{
    subject == 0 || subject == object
}

fn may_join(cred: &Cred, partition: u32) -> bool
    ensures { result ≡ (partition == 0 || cred.now.uid == 0) }
{
    partition == 0 || cred.is_root()
}

fn number(value: &LabelValue) -> u32
    ensures { result ≡ partition_of value.now }
{
    match value {
        LabelValue::Number(number) => *number,
        LabelValue::Unset | LabelValue::Range(_) => 0,
    }
}

fn object_number(object: Option<&ObjectView>, slot: u8) -> u32
    requires { slot < SLOTS }
    ensures { result ≡ partition_of (spec.object_slot (option_copied object.entry) slot) }
{
    match object {
        Some(view) => number(&view.label[slot as usize]),
        None => 0,
    }
}

fn wanted_number(request: Option<&Request>) -> u32
    ensures { result ≡ unwrap_or
        (option_and_then (number_asked modules.Partition) (option_copied request.entry)) 0 }
{
    match request {
        Some(request) => number_asked(Module::Partition, request).unwrap_or(0),
        None => 0,
    }
}
