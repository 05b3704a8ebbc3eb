//! The canonical text of a rule is read back as the rule, and what is read is a rule.
ghost use Rattle.mf_rule.specs.RoundTrip.{CanonicalTextStandsForItsRule, WhatIsReadIsARule};

/// The words of the canonical text of a rule in bounds stand for just this rule.
pub fn canonical_text_stands_for_its_rule()
    ensures { CanonicalTextStandsForItsRule }
{}

/// What words stand for is a rule, and has ranges of ids, one type or more where it tests types, and letters of a mode.
pub fn what_is_read_is_a_rule()
    ensures { WhatIsReadIsARule }
{}
