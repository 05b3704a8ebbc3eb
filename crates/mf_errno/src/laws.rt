//! Laws of the errors' numbers and names.
ghost use Rattle.mf_errno.specs.Errno.{NamesDiffer, NumbersDiffer};

/// No two errors have one number.
pub fn numbers_differ()
    ensures { NumbersDiffer }
{}

/// No two errors have one name.
pub fn names_differ()
    ensures { NamesDiffer }
{}
