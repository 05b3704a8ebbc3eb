//! The live entities, as the matrix sees them.
ghost use Rattle.std.specs.Prelude.{◌≡◌, [], ◌∷◌, ◌++◌, IfOk, IsSome, OnOk};
ghost use Rattle.mf_objects.specs.Live.{live_at};
ghost use Rattle.mf_objects.specs.Titles.{title_at};
ghost use Rattle.mf_matrix.specs.Matrix as spec;

use mf_item::{Kind, ObjectView, SubjectView};
use mf_names::Name;
use mf_objects::{Id, Objects};
use std::alloc::{AllocError, Global};

/// A live entity, with how outputs name it and how policies see it.
#[derive(Drop)]
pub struct Party {
    pub id: Id,
    pub title: Name,
    pub subject: SubjectView,
    pub object: ObjectView,
}

impl Party {
    pub(crate) fn is_process(&self) -> bool
        ensures { result ≡ spec.is_process self.now }
    {
        matches!(self.object.kind, Kind::Process)
    }
}

/// The live entities by rising id.
pub(crate) fn parties_of(alloc: Global, objects: &Objects) -> Result<Vec<Party>, AllocError>
    ensures { IfOk result (λ parties. parties.items ≡ spec.parties_in objects.now) }
{
    let mut parties = Vec::new(alloc);
    let end = objects.next_id();
    let mut from = 0;
    for _place in 0..objects.live() {
        let id = objects.least_from(from).unwrap();
        push_party(alloc, objects, id, &mut parties)?;
        from = id.number() + 1;
    }
    Ok(parties)
}

fn push_party(
    alloc: Global,
    objects: &Objects,
    id: Id,
    parties: &mut Vec<Party>,
) -> Result<(), AllocError>
    requires { IsSome (live_at objects.now id) }
    ensures { OnOk result (parties.new.items
        ≡ parties.old.items ++ spec.party_of objects.now id ∷ []) }
{
    let title = title_of(alloc, objects, id)?;
    let label = objects.label(id);
    let party = Party {
        id,
        title,
        subject: SubjectView {
            id: id.number(),
            cred: objects.cred(id),
            label,
        },
        object: ObjectView {
            id: id.number(),
            kind: objects.kind(id),
            file: objects.file(id),
            label,
        },
    };
    parties.push(party)?;
    Ok(())
}

fn title_of(alloc: Global, objects: &Objects, id: Id) -> Result<Name, AllocError>
    requires { IsSome (live_at objects.now id) }
    ensures { IfOk result (λ title. title ≡ title_at objects.now id) }
{
    let mut title = String::new(alloc);
    objects.title(id, &mut title)?;
    Ok(Name::from_string(title))
}
