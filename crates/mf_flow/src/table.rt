//! The table of the sources of a history.
ghost use Rattle.std.specs.Prelude.{◌≡◌, ◌<◌, ◌++◌, [], find, map, IfOk, IsSome, OnOk};
ghost use Rattle.std.specs.List.{AllByRecursion, cons_option, flat_map};
ghost use Rattle.std.specs.Option.{option_copied};
ghost use Rattle.mf_elem.specs.declared.label.TheConstants.{SLOTS};
ghost use Rattle.mf_errno.specs.Same.{same_module};
ghost use Rattle.mf_list.specs.Asked.{slot_of};
ghost use Rattle.mf_objects.specs.Live.{live_at};
ghost use Rattle.mf_objects.specs.Titles.{title_at};
ghost use Rattle.mf_calls.specs.declared.script.Script.{Script as ScriptValue};
ghost use Rattle.mf_calls.specs.WellFormed.{IsWellFormed};
ghost use Rattle.mf_core.specs.declared.history.History.{History as HistoryValue};
ghost use Rattle.mf_core.specs.LegalHistory.{opening_run, run_state_of, IsLegal};
ghost use Rattle.mf_flow.specs.Laws.{AreInOrder};
ghost use Rattle.mf_flow.specs.Rows.{AreOwnRows, AreRows, IsFlowOf, IsOpening, set_at};
ghost use Rattle.mf_flow.specs.Sources.{Sets};
ghost use Rattle.mf_flow.specs.Table as spec;

use crate::elem_set::ElemSet;
use crate::following::{Flow, Workspace, follow, own_at};
use crate::set_list::SetList;
use mf_calls::Script;
use mf_core::{BootList, History, Run};
use mf_errno::Module;
use mf_names::{Listing, Name};
use mf_objects::{Id, Objects};
use mf_policy::Registration;
use std::alloc::{AllocError, Global};

/// The sources of a live entity by a policy.
#[derive(Drop)]
pub struct Row {
    pub module: Module,
    pub id: Id,
    /// The kind of the entity, a colon, and its name or its path.
    pub title: Name,
    pub elements: ElemSet,
}

/// Room for a title, in bytes: few are longer.
const TITLE_ROOM: usize = 24;

/// Rows for mac_biba where it was booted, then for mac_mls, and then for mac_lomac, of the live entities by rising id.
pub type Table = Listing<Row>;

/// The sources of each live entity at the end of a legal history. Under mac_biba and mac_lomac each of them dominates the
/// entity's element, and under mac_mls the element dominates each.
pub fn sources(alloc: Global, script: &Script, history: &History) -> Result<Table, AllocError>
    requires formed { IsWellFormed script.now }
    requires legal { IsLegal script.now history.now }
    ensures table { IfOk result (λ table. table ≡ spec.table_of script.now history.now) }
    ensures order { OnOk result (AreInOrder script.now history.now) }
{
    let booted = sourced(alloc, &history.boots)?;
    if booted.is_empty() {
        return Ok(Listing::new(alloc));
    }
    let mut run = Run::new(alloc, script)?;
    sources_along(alloc, script, history, &booted, &mut run)
}

/// The same, of the policies that were booted, by a run that goes along the history.
fn sources_along(
    alloc: Global,
    script: &Script,
    history: &History,
    booted: &[Registration],
    run: &mut Run,
) -> Result<Table, AllocError>
    requires formed { IsWellFormed script.now }
    requires legal { IsLegal script.now history.now }
    requires booted { booted.now ≡ spec.sourced history.now.boots }
    requires opening { run.old ≡ record { script = script.now; run = opening_run script.now } }
    ensures { IfOk result (λ table. table ≡ spec.table_of script.now history.now) }
{
    let mut flows = opening_flows(alloc, booted, &run.state().objects)?;
    follow_all(alloc, script, history, run, &mut flows)?;
    list_flows(alloc, &run.state().objects, &flows)
}

/// The policies that bound what may move and were booted, in the order of their table.
pub fn sourced(alloc: Global, boots: &BootList) -> Result<Vec<Registration>, AllocError>
    ensures { IfOk result (λ booted. booted.items ≡ spec.sourced boots.now) }
{
    let mut booted = Vec::new(alloc);
    push_booted(boots, Module::Biba, &mut booted)?;
    push_booted(boots, Module::Mls, &mut booted)?;
    push_booted(boots, Module::Lomac, &mut booted)?;
    Ok(booted)
}

/// Appends the registration of the module at boot, where it was booted.
fn push_booted(
    boots: &BootList,
    wanted: Module,
    booted: &mut Vec<Registration>,
) -> Result<(), AllocError>
    ensures { OnOk result (booted.new.items ≡ booted.old.items ++ cons_option
        (find (λ r. same_module wanted r.module) boots.now) []) }
{
    if let Some(registration) = booted_as(boots, wanted) {
        booted.push(*registration)?;
    }
    Ok(())
}

/// The registration of the module at boot.
fn booted_as(boots: &BootList, wanted: Module) -> Option<&Registration>
    ensures { option_copied result ≡ find (λ r. same_module wanted r.module) boots.now }
{
    boots
        .as_slice()
        .iter()
        .find(|registration| wanted.is(registration.module))
}

/// What the history makes of a run and of the sources by each of these policies, which are those of the opening.
fn follow_all(
    alloc: Global,
    script: &Script,
    history: &History,
    run: &mut Run,
    flows: &mut Vec<Flow>,
) -> Result<(), AllocError>
    requires formed { IsWellFormed script.now }
    requires legal { IsLegal script.now history.now }
    requires run { run.old ≡ record { script = script.now; run = opening_run script.now } }
    requires registrations { map (λ flow. flow.registration) flows.old.items
        ≡ spec.sourced history.now.boots }
    requires opening { AllByRecursion (IsOpening run.old.run.state.objects) flows.old.items }
    ensures run { OnOk result (run.new.run ≡ run_state_of script.now history.now.events.list) }
    ensures registrations { OnOk result (map (λ flow. flow.registration) flows.new.items
        ≡ spec.sourced history.now.boots) }
    ensures flows { OnOk result (AllByRecursion (IsFlowOf script.now history.now) flows.new.items) }
{
    let mut space = Workspace::new();
    for event in history.events.as_slice() {
        follow(alloc, script, run, flows, &mut space, event)?;
    }
    Ok(())
}

/// The sources in the opening state by each of these policies.
pub(crate) fn opening_flows(
    alloc: Global,
    booted: &[Registration],
    objects: &Objects,
) -> Result<Vec<Flow>, AllocError>
    requires { AllByRecursion (λ r. slot_of r < SLOTS) booted.now }
    ensures registrations { IfOk result (λ flows. map (λ flow. flow.registration) flows.items
        ≡ booted.now) }
    ensures opening { IfOk result (λ flows. AllByRecursion (IsOpening objects.now) flows.items) }
{
    let mut flows = Vec::new(alloc);
    for registration in booted {
        let sets = own_sources(alloc, registration.slot.unwrap_or(0), objects)?;
        flows.push(Flow {
            registration: *registration,
            sets,
        })?;
    }
    Ok(flows)
}

/// The rows of each policy in turn.
pub(crate) fn list_flows(
    alloc: Global,
    objects: &Objects,
    flows: &[Flow],
) -> Result<Table, AllocError>
    ensures { (s : ScriptValue) (h : HistoryValue) → objects.now
        ≡ (run_state_of s h.events.list).state.objects → AllByRecursion (IsFlowOf s h) flows.now
        → IfOk result
        (λ table. table ≡ flat_map (λ flow. spec.rows_for s h flow.registration) flows.now) }
{
    let room = flows.len().saturating_mul(objects.live() as usize);
    let mut table = Listing::with_room(alloc, room)?;
    for flow in flows {
        let module = flow.registration.module;
        list_rows(alloc, module, objects, &flow.sets, &mut table)?;
    }
    Ok(table)
}

/// The own element of each live entity.
fn own_sources(alloc: Global, slot: u8, objects: &Objects) -> Result<SetList, AllocError>
    requires { slot < SLOTS }
    ensures { IfOk result (λ sets. AreOwnRows slot objects.now sets) }
{
    let mut sets = SetList::new(alloc);
    let _live = objects.live();
    for number in 0..objects.next_id() {
        sets.push(alloc, own_at(objects, slot, number), None)?;
    }
    Ok(sets)
}

/// Appends a row for each live entity, by rising id.
fn list_rows(
    alloc: Global,
    module: Module,
    objects: &Objects,
    sets: &SetList,
    table: &mut Table,
) -> Result<(), AllocError>
    ensures { (flows : Sets) → AreRows objects.now flows sets.now → OnOk result
        (table.new ≡ table.old ++ spec.rows_in «module» objects.now flows) }
{
    let end = objects.next_id();
    let mut from = 0;
    for _place in 0..objects.live() {
        let id = objects.least_from(from).unwrap();
        let row = sources_row(alloc, module, objects, sets, id)?;
        table.push(row)?;
        from = id.number() + 1;
    }
    Ok(())
}

fn sources_row(
    alloc: Global,
    module: Module,
    objects: &Objects,
    sets: &SetList,
    id: Id,
) -> Result<Row, AllocError>
    requires { IsSome (live_at objects.now id) }
    ensures { IfOk result
        (λ r. r ≡ record {
          «module» = «module»;
          id = id;
          title = title_at objects.now id;
          elements = set_at sets.now id.0;
        }) }
{
    let mut text = String::with_capacity(alloc, TITLE_ROOM)?;
    objects.title(id, &mut text)?;
    let title = Name::from_string(text);
    let elements = sets.list_of(alloc, id.number())?;
    Ok(Row {
        module,
        id,
        title,
        elements,
    })
}
