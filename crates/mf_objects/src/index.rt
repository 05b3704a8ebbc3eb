//! The index of names, by which a look-up compares a name or two and not those of all entities.
ghost use Rattle.std.specs.Prelude.{◌≡◌, ◌==◌, ◌≤◌, ◌<◌, ◌+◌, ◌-◌, take, length, [], ◌∷◌, ◌++◌, not, filter, replicate, IfOk, OnOk, OnErr, slice_index_or};
ghost use Rattle.std.specs.Str.{bytes_eq};
ghost use Rattle.mf_objects.specs.declared.index.TheConstants.{BUCKETS, SPREAD};
ghost use Rattle.mf_objects.specs.Index as index;

use crate::id::Id;
use std::alloc::{AllocError, Global};
use std::marker::Model;

/// How many buckets there are: as many as entities may live, so that most hold one id at most.
pub const BUCKETS: u32 = 1024;

/// Hashes are below this power of two, by which a sum of theirs with a byte stays far below what 32 bits hold. A remainder
/// by it is quick.
pub const SPREAD: u32 = 16_777_216;

/// What a hash is multiplied by before the next byte is added.
pub const FACTOR: u32 = 31;

/// The most bytes of a name that are compared one by one.
const SHORT_NAME: usize = 8;

/// The entities among which a name is looked up: processes, pipes, sockets, or what a directory holds. The root alone is
/// held by none.
#[derive(Clone, Copy)]
pub enum Group {
    Processes,
    Pipes,
    Sockets,
    Entries(Option<Id>),
}

impl Group {
    /// What the hashes of its names begin with.
    fn seed(self) -> u32
        ensures value { result ≡ index.seed_of self }
        ensures most { result < SPREAD + 4 }
    {
        match self {
            Group::Processes => 0,
            Group::Pipes => 1,
            Group::Sockets => 2,
            Group::Entries(None) => 3,
            Group::Entries(Some(dir)) => dir.0 % SPREAD + 4,
        }
    }
}

/// The bucket of a name, which equal names of one group share.
fn bucket_of(group: Group, name: &str) -> usize
    ensures value { result ≡ index.bucket_of group name.now }
    ensures within { result < BUCKETS }
{
    let mut hash = group.seed();
    for byte in name.as_bytes() {
        hash = mixed(hash, *byte);
    }
    (hash % BUCKETS) as usize
}

/// Whether the two are one name. Most names have a few bytes, which are compared one by one here.
pub fn same_name(name: &str, other: &str) -> bool
    ensures { result ≡ bytes_eq name.now other.now }
{
    let bytes = name.as_bytes();
    let others = other.as_bytes();
    if bytes.len() != others.len() || bytes.len() > SHORT_NAME {
        return name == other;
    }
    for place in 0..bytes.len() {
        if bytes[place] != others[place] {
            return false;
        }
    }
    true
}

/// The hash with one byte more.
fn mixed(hash: u32, byte: u8) -> u32
    requires { hash < SPREAD + 4 }
    ensures value { result ≡ index.mixed hash byte }
    ensures most { result < SPREAD }
{
    (hash * FACTOR + u32::from(byte)) % SPREAD
}

/// The ids in a bucket, rising. Contracts see their list.
#[derive(Drop)]
struct Bucket {
    ids: Vec<Id>,
}

impl Model for Bucket {
    ghost use Rattle.std.specs.Prelude.{List};
    ghost use Rattle.mf_objects.specs.declared.id.Id.{Id};

    ghost Value = { List Id };

    ghost view = { λ a. a.ids.items };
}

impl Bucket {
    fn new(alloc: Global) -> Bucket
        ensures { result ≡ [] }
    {
        Bucket {
            ids: Vec::new(alloc),
        }
    }

    fn as_slice(&self) -> &[Id]
        ensures { result.now ≡ self.now }
    {
        self.ids.as_slice()
    }

    fn push(&mut self, id: Id) -> Result<(), AllocError>
        ensures ok { OnOk result (self.new ≡ self.old ++ id ∷ []) }
        ensures err { OnErr result (self.new ≡ self.old) }
    {
        self.ids.push(id)?;
        Ok(())
    }

    fn pop(&mut self)
        ensures { self.new ≡ take (length self.old - 1) self.old }
    {
        let _last = self.ids.pop();
    }

    fn remove(&mut self, id: Id)
        ensures { self.new ≡ filter (λ other. not (other.0 == id.0)) self.old }
    {
        self.ids.retain(|other| other.0 != id.0);
    }
}

/// The ids of the live entities, spread over buckets by a hash of group and name. Contracts see the list of the buckets.
#[derive(Drop)]
pub struct NameIndex {
    buckets: Vec<Bucket>,
}

impl Model for NameIndex {
    ghost use Rattle.std.specs.Prelude.{◌≡◌, List, vec_len};
    ghost use Rattle.mf_objects.specs.declared.id.Id.{Id};
    ghost use Rattle.mf_objects.specs.declared.index.TheConstants.{BUCKETS};

    ghost Value = { List (List Id) };

    ghost view = { λ a. a.buckets.items };

    ghost invariant = { λ a. vec_len a.buckets ≡ BUCKETS };
}

impl NameIndex {
    /// Empty buckets.
    pub fn new(alloc: Global) -> Result<NameIndex, AllocError>
        ensures { IfOk result (λ index. index ≡ replicate BUCKETS []) }
    {
        let mut buckets = Vec::with_capacity(alloc, BUCKETS as usize)?;
        for _ in 0..BUCKETS {
            buckets.push(Bucket::new(alloc))?;
        }
        Ok(NameIndex { buckets })
    }

    /// The ids among which that of the entity of this group and name is, if it lives.
    pub fn candidates(&self, group: Group, name: &str) -> &[Id]
        ensures { result.now ≡ slice_index_or self.now (index.bucket_of group name.now) [] }
    {
        self.buckets[bucket_of(group, name)].as_slice()
    }

    /// Adds an id. If memory runs out, the index is unchanged.
    pub fn insert(&mut self, group: Group, name: &str, id: Id) -> Result<(), AllocError>
        ensures ok { OnOk result (self.new
            ≡ index.with_id (index.bucket_of group name.now) id self.old) }
        ensures err { OnErr result (self.new ≡ self.old) }
        ensures within { index.bucket_of group name.now < length self.old }
    {
        let bucket = &mut self.buckets[bucket_of(group, name)];
        bucket.push(id)
    }

    /// Takes the id back that was added last under this name.
    pub fn take_back(&mut self, group: Group, name: &str)
        ensures { self.new ≡ index.without_last (index.bucket_of group name.now) self.old }
    {
        let bucket = &mut self.buckets[bucket_of(group, name)];
        bucket.pop();
    }

    /// Removes an id.
    pub fn remove(&mut self, group: Group, name: &str, id: Id)
        ensures { self.new ≡ index.without_id (index.bucket_of group name.now) id self.old }
    {
        let bucket = &mut self.buckets[bucket_of(group, name)];
        bucket.remove(id);
    }
}
