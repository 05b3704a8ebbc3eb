//! A law of legal histories about entries.
ghost use Rattle.mf_core.specs.Laws.{PoliciesStayInEntries};

/// In every legal history, from a task's Enter to its Leave, the listed policies with their specs stay the same.
pub fn policies_stay_in_entries()
    ensures { PoliciesStayInEntries }
{}
