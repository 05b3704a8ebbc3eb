//! Which requests to change a label the listed policies claim.
ghost use Rattle.std.specs.Prelude.{◌≡◌};
ghost use Rattle.std.specs.List.{list_all};
ghost use Rattle.mf_policy.specs.Claims as spec;
ghost use Rattle.mf_policy.specs.Modules.{facts_of};

use crate::modules::{Labelling, facts_of, is_named};
use crate::spec_list::SpecList;
use mf_elem::Request;
use mf_errno::Module;
use mf_item::Kind;

impl SpecList {
    /// Whether the listed policies claim a request to change the label of an entity of that kind: it names no other policy,
    /// and each takes the part that it gives for it. A range for an object is claimed, and refused later.
    pub fn claims(&self, kind: Kind, request: &Request) -> bool
        ensures { result ≡ spec.is_claimed self.now kind request.now }
    {
        !request.other && claims_parts(self, kind, request, &Module::all())
    }
}

fn claims_parts(listed: &SpecList, kind: Kind, request: &Request, modules: &[Module]) -> bool
    ensures { result ≡ list_all (spec.claims_part listed.now kind request.now) modules.now }
{
    modules
        .iter()
        .all(|module| claims_part(listed, kind, request, *module))
}

/// Whether the request has no part for the module's policy, or that is listed and takes it.
fn claims_part(listed: &SpecList, kind: Kind, request: &Request, module: Module) -> bool
    ensures { result ≡ spec.claims_part listed.now kind request.now «module» }
{
    !is_named(module, request) || (listed.is_listed(module) && takes_requests(module, kind))
}

/// Whether the module's policy takes requests to change the label of an entity of that kind.
fn takes_requests(module: Module, kind: Kind) -> bool
    ensures { result ≡ spec.takes_by (facts_of «module»).labels kind }
{
    match facts_of(module).labels {
        Labelling::Nothing => false,
        Labelling::Ranges(..) | Labelling::Elements(_) => true,
        Labelling::Partitions => matches!(kind, Kind::Process),
    }
}
