//! Why mac_partition(4) denies: a subject in a partition sees what is in it, and one in none, which is partition 0, everything.
ghost use Rattle.std.specs.Prelude.{◌≡◌, ◌<◌, option_and_then, option_copied, unwrap_or};
ghost use Rattle.mf_errno.specs.declared.module.Module.TheVariants as modules;
ghost use Rattle.mf_policy.specs.Answer as answers;
ghost use Rattle.mf_policy.specs.Modules.{number_asked, partition_of};
ghost use Rattle.mf_answers.specs.Reasons as spec;

use crate::columns::partition_test_of;
use crate::reasons::Reason;
use mf_elem::{LabelValue, Request, SLOTS};
use mf_item::{Item, ObjectView};
use mf_policy::PartitionTest;

/// Why the policy, which holds this slot, denies an item.
#[inline(always)]
pub fn partition_reason(slot: u8, item: &Item) -> Option<Reason>
    requires { slot < SLOTS }
    ensures { result ≡ spec.partition_reason slot item.now }
{
    partitions_reason(
        partition_test_of(item.op()),
        item.subject().cred.uid,
        partition_of(&item.subject().label[slot as usize]),
        object_partition(item.object(), slot),
        partition_asked(item.request()),
    )
}

/// Why a subject of this effective uid and one partition is denied, where the object has another and the subject asks for the
/// third. Only root takes on a partition, and anybody may ask for none.
#[inline(always)]
fn partitions_reason(
    test: PartitionTest,
    uid: u32,
    subject: u32,
    object: u32,
    asked: u32,
) -> Option<Reason>
    ensures { result ≡ spec.partitions_reason test uid subject object asked }
{
    match test {
        PartitionTest::Agree(errno) if subject != 0 && subject != object => {
            Some(Reason::Partitions {
                subject,
                object,
                errno,
            })
        }
        PartitionTest::Join if asked != 0 && uid != 0 => Some(Reason::Joins { asked, uid }),
        PartitionTest::Agree(_) | PartitionTest::Join | PartitionTest::Ignore => None,
    }
}

/// The partition that a slot's value is read as; 0 where it holds none.
fn partition_of(value: &LabelValue) -> u32
    ensures { result ≡ partition_of value.now }
{
    match value {
        LabelValue::Number(partition) => *partition,
        LabelValue::Unset | LabelValue::Range(_) => 0,
    }
}

/// The partition of the object; 0 where there is no object.
fn object_partition(object: Option<&ObjectView>, slot: u8) -> u32
    requires { slot < SLOTS }
    ensures { result ≡ partition_of (answers.object_slot (option_copied object.entry) slot) }
{
    match object {
        Some(view) => partition_of(&view.label[slot as usize]),
        None => 0,
    }
}

/// The partition that a request asks for; 0 where it asks for none.
fn partition_asked(request: Option<&Request>) -> u32
    ensures { result ≡ unwrap_or
        (option_and_then (number_asked modules.Partition) (option_copied request.entry)) 0 }
{
    match request {
        Some(request) => request.partition.unwrap_or(0),
        None => 0,
    }
}
