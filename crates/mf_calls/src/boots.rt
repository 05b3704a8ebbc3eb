//! Which modules a script boots, and what it may ask of their policies.
ghost use Rattle.std.specs.Prelude.{◌≡◌, ◌||◌, not};
ghost use Rattle.std.specs.List.{list_all};
ghost use Rattle.mf_calls.specs.Boots as spec;
ghost use Rattle.mf_policy.specs.Modules as facts;

use mf_elem::Request;
use mf_errno::Module;
use mf_item::Kind;
use mf_policy::{is_named, may_ask};

/// Whether one of the modules is this one.
pub fn is_booted(boots: &[Module], wanted: Module) -> bool
    ensures { result ≡ spec.is_booted boots.now wanted }
{
    boots.iter().any(|booted| wanted.is(*booted))
}

fn may_name(boots: &[Module], request: &Request, named: Module) -> bool
    ensures { result ≡ (not (facts.is_named named request.now) || spec.is_booted boots.now named) }
{
    !is_named(named, request) || is_booted(boots, named)
}

fn may_name_each(boots: &[Module], request: &Request, modules: &[Module]) -> bool
    ensures { result ≡ list_all
        (λ m. not (facts.is_named m request.now) || spec.is_booted boots.now m) modules.now }
{
    modules.iter().all(|named| may_name(boots, request, *named))
}

/// Whether each policy that the request names is booted.
fn names_booted(boots: &[Module], request: &Request) -> bool
    ensures { result ≡ spec.names_booted boots.now request.now }
{
    may_name_each(boots, request, &Module::all()) && !request.other
}

fn each_may_be_asked(boots: &[Module], kind: Kind, request: &Request) -> bool
    ensures { result ≡ list_all (λ booted. facts.may_ask booted kind request.now) boots.now }
{
    boots.iter().all(|booted| may_ask(*booted, kind, request))
}

/// Whether a script that boots these modules may ask this for an entity of that kind.
pub fn may_ask_for(kind: Kind, boots: &[Module], request: &Request) -> bool
    ensures { result ≡ spec.may_ask_for kind boots.now request.now }
{
    names_booted(boots, request) && each_may_be_asked(boots, kind, request)
}
