//! A rule of which some words are read.
ghost use Rattle.std.specs.Prelude.{◌≡◌};
ghost use Rattle.mf_rule.specs.Reading as spec;
ghost use Rattle.mf_rule.specs.Parts.{no_object_tests, no_tests};

use crate::rule::{ObjectSide, Rule, Side};

/// The parts of a rule that have tests.
#[derive(Clone, Copy, PartialEq, Eq)]
pub enum Part {
    Subject,
    Object,
}

/// What the next word has to be. A bool says whether a `!` turns the test.
#[derive(Clone, Copy)]
pub enum Next {
    /// The word `subject`.
    Start,
    /// The first word of a part: `not`, or as for `Test`.
    First(Part),
    /// A `!`, the name of a test, or the word behind the part.
    Test(Part),
    /// The name of a test, behind a `!`.
    Name(Part),
    /// A range of uids.
    Uid(Part, bool),
    /// A range of gids.
    Gid(Part, bool),
    /// Letters of types.
    Types(bool),
    /// The letters of the mode.
    Letters,
    /// Nothing more.
    End,
}

/// A rule so far, and what comes next.
#[derive(Clone, Copy)]
pub struct Begun {
    pub next: Next,
    pub rule: Rule,
}

fn no_tests() -> Side
    ensures { result ≡ no_tests }
{
    Side {
        not: false,
        uid: None,
        gid: None,
    }
}

fn no_object_tests() -> ObjectSide
    ensures { result ≡ no_object_tests }
{
    ObjectSide {
        side: no_tests(),
        suid: None,
        sgid: None,
        uid_of_subject: None,
        gid_of_subject: None,
        types: None,
    }
}

impl Begun {
    /// Nothing is read.
    pub fn nothing() -> Begun
        ensures { result ≡ spec.nothing_read }
    {
        Begun {
            next: Next::Start,
            rule: Rule {
                subject: no_tests(),
                object: no_object_tests(),
                mode: 0,
            },
        }
    }
}

impl Rule {
    /// The tests of ids, and the `not`, of a part.
    pub(crate) fn side(&self, part: Part) -> Side
        ensures { result ≡ spec.side_of part self.now }
    {
        match part {
            Part::Subject => self.subject,
            Part::Object => self.object.side,
        }
    }

    pub(crate) fn set_side(&mut self, part: Part, side: Side)
        ensures { self.new ≡ spec.with_side part self.old side }
    {
        match part {
            Part::Subject => self.subject = side,
            Part::Object => self.object.side = side,
        }
    }
}
