//! Laws of the rules for relabels.
ghost use Rattle.mf_policy.specs.Laws.{SubjectsStayValid, ObjectsGetNoRange};

/// Where a subject's label is valid and has a range, and it may take the label that it asks for, its label after that is valid and
/// has a range.
pub fn subjects_stay_valid()
    ensures { SubjectsStayValid }
{}

/// Where an object's label has an effective element and no range, and a subject may give it the label that it asks for, its label
/// after that has an effective element and no range.
pub fn objects_get_no_range()
    ensures { ObjectsGetNoRange }
{}
