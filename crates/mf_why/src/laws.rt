//! Laws of the policies and rules that are told to deny a check, and of the rules that are told to allow one.
ghost use Rattle.mf_why.specs.Laws.{DenialsAreTold, DeniersCompose, EachDenierIsTold, EachRuleIsTold, FileRulesAllow, LoweringsAreTold, OneDecides, PortRulesAllow, PrivilegesHaveNoDenier};

/// Each listed policy that denies a check is told, in walk order and with its own error, and no policy that lets it pass.
pub fn each_denier_is_told()
    ensures { EachDenierIsTold }
{}

/// Of mac_bsdextended(4) without first match exactly the rules are told that deny the check by themselves, by rising number.
pub fn each_rule_is_told()
    ensures { EachRuleIsTold }
{}

/// The errors that are told of a check compose to the answer of all listed policies.
pub fn deniers_compose()
    ensures { DeniersCompose }
{}

/// Of those that are told exactly one decides, and the answer is by its module and with its error.
pub fn one_decides()
    ensures { OneDecides }
{}

/// No policy denies a check of a privilege.
pub fn privileges_have_no_denier()
    ensures { PrivilegesHaveNoDenier }
{}

/// Each denial of a legal history is that of a check, and those that deny it are told: none of a privilege, else exactly one that
/// decides, which the reply names.
pub fn denials_are_told()
    ensures { DenialsAreTold }
{}

/// A lowering is told exactly of a check that leaves its subject another element of mac_lomac(4), with both.
pub fn lowerings_are_told()
    ensures { LoweringsAreTold }
{}

/// The rule of mac_bsdextended(4) that is told to allow a check, with first match, stands where it is said to, with the letters that are
/// said, and decides: whatever stands behind it, the rules up to it allow; and with letters in place of its own that lack some of those
/// that are wanted they deny. Where none is told, a check is allowed exactly where no rule matches.
pub fn file_rules_allow()
    ensures { FileRulesAllow }
{}

/// The rule of mac_portacl(4) that is told to allow a port is the first by which the subject may bind it: by that rule alone it may, and
/// by those before it may not. Where none is told, the subject may bind it exactly where it needs no rule.
pub fn port_rules_allow()
    ensures { PortRulesAllow }
{}
