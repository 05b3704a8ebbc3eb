//! Laws of legal histories about the label slots of entities.
ghost use Rattle.mf_lifetimes.specs.Laws.{SlotsAreMadeOnce, SetSlotsAreMarked, GoneSlotsHaveEnded, BootedPoliciesLast, OpeningIsWhole};

/// Over a legal history each label slot of each entity is made at most once and ended at most once, both by one registration.
pub fn slots_are_made_once()
    ensures { SlotsAreMadeOnce }
{}

/// A label slot of a live entity is Unset exactly where it has no mark.
pub fn set_slots_are_marked()
    ensures { SetSlotsAreMarked }
{}

/// A label slot of an entity that has gone was never made, or has ended.
pub fn gone_slots_have_ended()
    ensures { GoneSlotsHaveEnded }
{}

/// A policy of the static list that was booted with a label slot stays listed, and that slot of every live entity holds a valid label
/// for its kind: where the policy labels by elements always an effective element, and that of a process a range too.
pub fn booted_policies_last()
    ensures { BootedPoliciesLast }
{}

/// In the opening state of a well-formed script no file and no task is missing: beside the root directory as many entities live
/// as the script has files and tasks.
pub fn opening_is_whole()
    ensures { OpeningIsWhole }
{}
