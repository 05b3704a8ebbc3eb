//! Laws of reasons.
ghost use Rattle.mf_answers.specs.Laws.{ErrnoIsOfReason, ReasonsDeny, RuleDecides};

/// What a policy answers is the error of its reason, and success where there is none.
pub fn errno_is_of_reason()
    ensures { ErrnoIsOfReason }
{}

/// There is no reason exactly where the answer is success.
pub fn reasons_deny()
    ensures { ReasonsDeny }
{}

/// The rule that is told stands where it is said to, with the letters that are said, and decides: whatever stands behind it, the rules
/// up to it deny; and with the letters that are wanted in place of its own they allow.
pub fn rule_decides()
    ensures { RuleDecides }
{}
