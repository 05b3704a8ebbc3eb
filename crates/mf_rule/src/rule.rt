//! Rules, and which subjects and files they match.
ghost use Rattle.std.specs.Prelude.{◌≡◌, ◌↔◌, ◌≤◌, ◌==◌, ℕ, IsTrue, Some, not};
ghost use Rattle.std.specs.Int.RustNames.{bit_and};
ghost use Rattle.std.specs.List.{list_any};
ghost use Rattle.mf_rule.specs.Candidates.{subject_may, object_may, may_match};
ghost use Rattle.mf_rule.specs.Match as spec;
ghost use Rattle.mf_rule.specs.UidIndex.{lone, is_within};
ghost use Rattle.mf_rule.specs.Flags.{SameFlags};

use mf_cred::{Cred, FileView};

/// The letter `a`, as a bit: to administer.
pub const ADMINISTER: u8 = 1;
/// The letter `r`: to read.
pub const READ: u8 = 2;
/// The letter `s`: to look at attributes.
pub const STAT: u8 = 4;
/// The letter `w`: to write.
pub const WRITE: u8 = 8;
/// The letter `x`: to execute.
pub const EXECUTE: u8 = 16;

/// The type `r`, as a bit: a regular file.
pub const REGULAR: u8 = 1;
/// The type `d`: a directory.
pub const DIRECTORY: u8 = 2;
/// The type `b`: a block special device.
pub const BLOCK: u8 = 4;
/// The type `c`: a character special device.
pub const CHARACTER: u8 = 8;
/// The type `l`: a symbolic link.
pub const LINK: u8 = 16;
/// The type `s`: a socket.
pub const SOCKET: u8 = 32;
/// The type `p`: a named pipe.
pub const FIFO: u8 = 64;
/// The type `a`: any of these.
pub const ANY_TYPE: u8 = 127;

/// The greatest uid and gid.
pub const LAST_ID: u32 = 4_294_967_295;

/// A test of an id: that it lies in a range, both ends included; after `!` that it doesn't.
#[derive(Clone, Copy, PartialEq, Eq)]
pub struct IdTest {
    pub not: bool,
    pub least: u32,
    pub greatest: u32,
}

/// All ids.
const ANYBODY: IdTest = IdTest {
    not: false,
    least: 0,
    greatest: LAST_ID,
};

/// A test of a file's type: that it is among these; after `!` that it isn't.
#[derive(Clone, Copy, PartialEq, Eq)]
pub struct TypeTest {
    pub not: bool,
    pub types: u8,
}

/// The tests of ids, of a subject or of an object. After `not` the whole part is turned.
#[derive(Clone, Copy)]
pub struct Side {
    pub not: bool,
    pub uid: Option<IdTest>,
    pub gid: Option<IdTest>,
}

/// The tests of an object. Those without a value say whether what they name has to be so: Some(false) stands for `!`.
#[derive(Clone, Copy)]
pub struct ObjectSide {
    pub side: Side,
    pub suid: Option<bool>,
    pub sgid: Option<bool>,
    pub uid_of_subject: Option<bool>,
    pub gid_of_subject: Option<bool>,
    pub types: Option<TypeTest>,
}

/// A rule of mac_bsdextended(4): which subjects and which objects it matches, and the letters that it gives.
#[derive(Clone, Copy)]
pub struct Rule {
    pub subject: Side,
    pub object: ObjectSide,
    pub mode: u8,
}

fn turned(not: bool, holds: bool) -> bool
    ensures { result ≡ spec.turned not holds }
{
    if not { !holds } else { holds }
}

impl IdTest {
    pub fn has(&self, id: u32) -> bool
        ensures { result ≡ spec.has self.now id }
    {
        self.least <= id && id <= self.greatest
    }

    fn has_uid(&self, cred: &Cred) -> bool
        ensures { result ≡ spec.has_uid self.now cred.now }
    {
        self.has(cred.uid) || self.has(cred.ruid) || self.has(cred.svuid)
    }

    fn has_group(&self, cred: &Cred) -> bool
        ensures { result ≡ list_any (spec.has self.now) cred.now.groups }
    {
        has_any(self, cred.groups.as_slice())
    }
}

fn has_any(test: &IdTest, ids: &[u32]) -> bool
    ensures { result ≡ list_any (spec.has test.now) ids.now }
{
    ids.iter().any(|id| test.has(*id))
}

fn subject_uid(test: &Option<IdTest>, cred: &Cred) -> bool
    ensures { result ≡ spec.if_asked test.now (λ t. spec.turned t.not (spec.has_uid t cred.now)) }
{
    match test {
        None => true,
        Some(test) => turned(test.not, test.has_uid(cred)),
    }
}

fn subject_gid(test: &Option<IdTest>, cred: &Cred) -> bool
    ensures { result ≡ spec.if_asked test.now
        (λ t. spec.turned t.not (list_any (spec.has t) cred.now.groups)) }
{
    match test {
        None => true,
        Some(test) => turned(test.not, test.has_group(cred)),
    }
}

fn object_id(test: &Option<IdTest>, id: u32) -> bool
    ensures { result ≡ spec.if_asked test.now (λ t. spec.turned t.not (spec.has t id)) }
{
    match test {
        None => true,
        Some(test) => turned(test.not, test.has(id)),
    }
}

fn flag(wanted: Option<bool>, is: bool) -> bool
    ensures { result ≡ spec.if_asked wanted (λ w. spec.turned (not w) is) }
{
    match wanted {
        None => true,
        Some(true) => is,
        Some(false) => !is,
    }
}

fn object_type(test: &Option<TypeTest>, dir: bool) -> bool
    ensures { result ≡ spec.if_asked test.now (λ t. spec.turned t.not (spec.has_type t.types dir)) }
{
    match test {
        None => true,
        Some(test) => turned(test.not, has_type(test.types, dir)),
    }
}

fn has_type(types: u8, dir: bool) -> bool
    ensures { result ≡ spec.has_type types dir }
{
    types & (if dir { DIRECTORY } else { REGULAR }) != 0
}

/// Whether the file's mode has the bit.
fn has_mode_bit(bit: u16, file: &FileView) -> bool
    ensures { result ≡ spec.has_mode_bit bit file.now }
{
    file.mode & bit != 0
}

fn owns(cred: &Cred, file: &FileView) -> bool
    ensures { result ≡ spec.owns cred.now file.now }
{
    file.uid == cred.uid || file.uid == cred.ruid || file.uid == cred.svuid
}

impl Side {
    fn same(&self, other: &Side) -> bool
        ensures { IsTrue result ↔ (self.now ≡ other.now) }
    {
        self.not == other.not && self.uid == other.uid && self.gid == other.gid
    }

    /// Whether the part of a rule matches the subject.
    fn matches(&self, cred: &Cred) -> bool
        ensures { result ≡ spec.subject_matches self.now cred.now }
    {
        turned(
            self.not,
            subject_uid(&self.uid, cred) && subject_gid(&self.gid, cred),
        )
    }

    /// The uids of the subjects that the part may match, by its test of uids alone.
    fn reach(&self) -> IdTest
        ensures { (uid : ℕ) → uid ≤ LAST_ID
            → subject_may self.now (lone uid) ≡ spec.has result uid }
    {
        match self.uid {
            Some(test) if !self.not && !test.not => test,
            _ => ANYBODY,
        }
    }
}

impl ObjectSide {
    fn same(&self, other: &ObjectSide) -> bool
        ensures { IsTrue result ↔ (self.now ≡ other.now) }
    {
        self.side.same(&other.side) && self.same_flags(other) && self.types == other.types
    }

    fn same_flags(&self, other: &ObjectSide) -> bool
        ensures { IsTrue result ↔ SameFlags self.now other.now }
    {
        self.suid == other.suid
            && self.sgid == other.sgid
            && self.uid_of_subject == other.uid_of_subject
            && self.gid_of_subject == other.gid_of_subject
    }

    /// Whether the tests of the object hold, each by itself.
    fn holds(&self, cred: &Cred, file: &FileView) -> bool
        ensures { result ≡ spec.object_tests self.now cred.now file.now }
    {
        object_id(&self.side.uid, file.uid)
            && object_id(&self.side.gid, file.gid)
            && flag(self.suid, has_mode_bit(0o4000, file))
            && flag(self.sgid, has_mode_bit(0o2000, file))
            && flag(self.uid_of_subject, owns(cred, file))
            && flag(self.gid_of_subject, cred.in_group(file.gid))
            && object_type(&self.types, file.dir)
    }

    /// Whether the part may match a directory, or another file, by its test of the type alone.
    fn may_match(&self, dir: bool) -> bool
        ensures { result ≡ object_may self.now dir }
    {
        self.side.not || object_type(&self.types, dir)
    }

    fn matches(&self, cred: &Cred, file: &FileView) -> bool
        ensures { result
            ≡ spec.turned self.now.side.not (spec.object_tests self.now cred.now file.now) }
    {
        turned(self.side.not, self.holds(cred, file))
    }
}

impl Rule {
    /// Whether the rule matches: both its parts do.
    pub fn matches(&self, cred: &Cred, file: &FileView) -> bool
        ensures { result ≡ spec.matches self.now cred.now file.now }
    {
        self.subject.matches(cred) && self.object.matches(cred, file)
    }

    /// The uids of the subjects that the rule may match with a directory, or with another file, if any.
    pub(crate) fn reach(&self, dir: bool) -> Option<IdTest>
        ensures { (uid : ℕ) → uid ≤ LAST_ID
            → may_match (lone uid) dir (Some self.now) ≡ is_within result uid }
    {
        if self.object.may_match(dir) {
            Some(self.subject.reach())
        } else {
            None
        }
    }

    /// Whether the rule gives all of these letters.
    pub fn gives(&self, wanted: u8) -> bool
        ensures { result ≡ (bit_and self.now.mode wanted == wanted) }
    {
        self.mode & wanted == wanted
    }

    /// Whether the two are one rule.
    pub fn same(&self, other: &Rule) -> bool
        ensures { IsTrue result ↔ (self.now ≡ other.now) }
    {
        self.subject.same(&other.subject)
            && self.object.same(&other.object)
            && self.mode == other.mode
    }
}
