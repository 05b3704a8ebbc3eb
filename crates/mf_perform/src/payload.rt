//! What a call hands back.
ghost use Rattle.std.specs.Option.{option_map_or};
ghost use Rattle.std.specs.Prelude.{◌≡◌, ◌≤◌, ℕ, List, Option, IfOk, IsOk, IfSome, IsSome, Some, false, length, map};
ghost use Rattle.mf_errno.specs.Names.{module_named};
ghost use Rattle.mf_objects.specs.Descriptors.{fds_at, lowest_free};
ghost use Rattle.mf_objects.specs.Live.{content_at, file_at, is_process, live_at};
ghost use Rattle.mf_objects.specs.Lives.{IsLive};
ghost use Rattle.mf_plan.specs.Found.{AreFound};
ghost use Rattle.mf_plan.specs.Payloads as read;
ghost use Rattle.mf_plan.specs.declared.reply.Payload.TheVariants as payloads;
ghost use Rattle.mf_plan.specs.Plan.{call_row};
ghost use Rattle.mf_policy.specs.declared.settings.Change.TheVariants as changes;
ghost use Rattle.mf_errno.specs.declared.module.Module.TheVariants as modules;
ghost use Rattle.mf_policy.specs.Settings.{listed_rules};
ghost use Rattle.mf_calls.specs.WellFormed.{IsFormedCall};
ghost use Rattle.mf_perform.specs.Found as spec;
ghost use Rattle.mf_perform.specs.Effect.{payload_takes_memory};

use crate::labels::label_parts;
use mf_calls::Call;
use mf_cred::ArrayVec;
use mf_errno::Module;
use mf_objects::{Id, Objects};
use mf_plan::{Found, Loaded, Payload, State};
use mf_policy::{Change, MOST_LISTED, SpecList, registration_of};
use mf_rule::Rule;
use std::alloc::{AllocError, Global};

/// What the call, which is about what was found, hands back where it is done. Only a label, the
/// names of a directory and a list of rules take memory.
pub fn payload_of(
    alloc: Global,
    state: &State,
    found: &Found,
    call: &Call,
) -> Result<Payload, AllocError>
    requires found { (task : List ℕ) × (child : Option (List ℕ))
        × AreFound state.now task child call.now found.now }
    requires formed { IsFormedCall call.now }
    requires few { length state.now.specs ≤ MOST_LISTED }
    ensures value { IfOk result (λ payload. (task : List ℕ) → (child : Option (List ℕ))
        → AreFound state.now task child call.now found.now
        → payload ≡ (call_row state.now task child call.now).payload) }
    ensures memory { (task : List ℕ) → (child : Option (List ℕ))
        → AreFound state.now task child call.now found.now
        → payload_takes_memory (call_row state.now task child call.now).payload ≡ false
        → IsOk result }
{
    // Counting the entities shows the proof that the target lives.
    let _live = state.objects.live();
    read_found(alloc, state, found.caller, found.target, call)
}

/// What the call hands back, by the caller and the target that were found. The clause says of every
/// call what the table of `payload_found` has, so one that is new and hands something back is refused
/// here until it has its line.
fn read_found(
    alloc: Global,
    state: &State,
    caller: Option<Id>,
    target: Option<Id>,
    call: &Call,
) -> Result<Payload, AllocError>
    requires caller { IfSome caller (λ me. IsLive is_process state.now.objects me) }
    requires live { IfSome target (λ id. IsSome (live_at state.now.objects id)) }
    requires formed { IsFormedCall call.now }
    requires few { length state.now.specs ≤ MOST_LISTED }
    ensures value { IfOk result (λ payload. payload
        ≡ spec.payload_found state.now caller call.now target) }
    ensures memory { payload_takes_memory (spec.payload_found state.now caller call.now target)
        ≡ false → IsOk result }
{
    let objects = &state.objects;
    match call {
        Call::Read(_) | Call::Fread(_) | Call::Pread(_) => Ok(head(objects, target)),
        Call::OpenFd(..) => Ok(next_number(objects, caller)),
        Call::Stat(_) => Ok(stat(objects, target)),
        Call::Getpmac | Call::Getfmac(_) => label(alloc, state, target),
        Call::Readdir(_) => names(alloc, objects, target),
        Call::Pstat(_) => Ok(size(objects, target)),
        Call::Recv(_) => Ok(message(objects, target)),
        Call::Kldstat => Ok(Payload::Modules(loaded(&state.specs))),
        Call::Kldload(name) => Ok(slot(state, name.as_str())),
        Call::UgidfwList => rules(alloc, &state.specs),
        Call::UgidfwAdd(rule) => Ok(added(&state.specs, *rule.get())),
        _ => Ok(Payload::None),
    }
}

/// The beginning of what a file or a pipe holds.
fn head(objects: &Objects, found: Option<Id>) -> Payload
    requires { IfSome found (λ id. IsSome (live_at objects.now id)) }
    ensures { result ≡ spec.payload_of_found (read.head objects.now) found }
{
    match found {
        Some(id) => Payload::Head(objects.head(id)),
        None => Payload::None,
    }
}

fn stat(objects: &Objects, found: Option<Id>) -> Payload
    requires { IfSome found (λ id. IsSome (live_at objects.now id)) }
    ensures { result ≡ spec.payload_of_found
        (λ id. payloads.Stat (file_at objects.now id) (length (content_at objects.now id))) found }
{
    match found {
        Some(id) => Payload::Stat(objects.file(id), objects.size(id)),
        None => Payload::None,
    }
}

#[tactic(auto, using(mf_objects::proofs::Laws::live_directory))]
fn names(alloc: Global, objects: &Objects, found: Option<Id>) -> Result<Payload, AllocError>
    requires { IfSome found (λ id. IsSome (live_at objects.now id)) }
    ensures value { IfOk result (λ payload. payload
        ≡ spec.payload_of_found (read.names objects.now) found) }
    ensures memory { payload_takes_memory (spec.payload_of_found (read.names objects.now) found)
        ≡ false → IsOk result }
{
    match found {
        Some(id) if objects.file(id).dir => Ok(Payload::Names {
            count: objects.count(id),
            first: objects.names(alloc, id)?,
        }),
        _ => Ok(Payload::None),
    }
}

/// The label of a process or a file.
fn label(alloc: Global, state: &State, found: Option<Id>) -> Result<Payload, AllocError>
    requires { IfSome found (λ id. IsSome (live_at state.now.objects id)) }
    ensures value { IfOk result (λ payload. payload
        ≡ spec.payload_of_found (read.label state.now) found) }
    ensures memory { payload_takes_memory (spec.payload_of_found (read.label state.now) found)
        ≡ false → IsOk result }
{
    let objects = &state.objects;
    match found {
        Some(id) => {
            let parts = label_parts(&state.specs, objects.kind(id), &objects.label(id));
            Payload::label(alloc, parts.as_slice())
        }
        None => Ok(Payload::None),
    }
}

/// The number that the next descriptor of the process gets.
fn next_number(objects: &Objects, caller: Option<Id>) -> Payload
    requires { IfSome caller (λ me. IsLive is_process objects.now me) }
    ensures { result ≡ spec.payload_of_found
        (λ me. payloads.Fd (lowest_free (fds_at objects.now me))) caller }
{
    match caller {
        Some(me) => Payload::Fd(objects.lowest_free(me)),
        None => Payload::None,
    }
}

/// How many bytes a pipe holds.
fn size(objects: &Objects, found: Option<Id>) -> Payload
    requires { IfSome found (λ id. IsSome (live_at objects.now id)) }
    ensures { result
        ≡ spec.payload_of_found (λ id. payloads.Size (length (content_at objects.now id))) found }
{
    match found {
        Some(id) => Payload::Size(objects.size(id)),
        None => Payload::None,
    }
}

/// The beginning of a socket's oldest message.
fn message(objects: &Objects, found: Option<Id>) -> Payload
    requires { IfSome found (λ id. IsSome (live_at objects.now id)) }
    ensures { result ≡ spec.payload_of_found (read.message objects.now) found }
{
    match found {
        Some(id) => Payload::Head(objects.message(id)),
        None => Payload::None,
    }
}

/// The listed modules in walk order.
fn loaded(specs: &SpecList) -> ArrayVec<Loaded, MOST_LISTED>
    requires { length specs.now ≤ MOST_LISTED }
    ensures { result ≡ map read.loaded specs.now }
{
    let mut modules = ArrayVec::new();
    for place in 0..specs.len() {
        let registration = specs.registration(place);
        modules.push(Loaded {
            module: registration.module,
            slot: registration.slot,
        });
    }
    modules
}

/// The label slot that a module of that name gets.
fn slot(state: &State, name: &str) -> Payload
    ensures { result ≡ spec.slot state.now.numbers (module_named name.now) }
{
    match Module::from_name(name) {
        None => Payload::None,
        Some(module) => {
            let registration = registration_of(module, state.booted, state.numbers.given());
            Payload::Slot(registration.slot)
        }
    }
}

/// The rules about files.
fn rules(alloc: Global, specs: &SpecList) -> Result<Payload, AllocError>
    ensures value { IfOk result (λ payload. payload
        ≡ option_map_or payloads.Rules (listed_rules specs.now) payloads.None) }
    ensures memory { payload_takes_memory (option_map_or payloads.Rules
        (listed_rules specs.now) payloads.None) ≡ false → IsOk result }
{
    match specs.rules() {
        Some(rules) => Ok(Payload::Rules(rules.copy(alloc)?)),
        None => Ok(Payload::None),
    }
}

/// The number that a rule gets.
fn added(specs: &SpecList, rule: Rule) -> Payload
    ensures { result
        ≡ spec.rule_added specs.now (Some (modules.Bsdextended, changes.RuleAdd rule)) }
{
    let change = Change::RuleAdd(rule);
    match specs.answer_to(Module::Bsdextended, &change).number {
        Some(number) => Payload::Rule(number),
        None => Payload::None,
    }
}
