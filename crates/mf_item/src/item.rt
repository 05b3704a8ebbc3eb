//! A check that the policies are asked for.
ghost use Rattle.std.specs.Prelude.{◌≡◌, option_copied};

use crate::{CheckOp, ObjectView, SubjectView};
use mf_elem::Request;
use mf_errno::Priv;
use std::marker::Model;

/// One check: whether the subject may do the operation on the object. A request is there exactly for relabels, a
/// privilege exactly for `Priv`, a port exactly for `SocketBind`, and an object for all operations but `CredRelabel`,
/// `KldLoad`, `KldUnload` and `Priv`. Subject, object and request stay with the caller, since policies only look at them.
#[derive(Drop)]
pub struct Item<'a> {
    op: CheckOp,
    subject: &'a SubjectView,
    object: Option<&'a ObjectView>,
    request: Option<&'a Request>,
    privilege: Option<Priv>,
    port: Option<(bool, u16)>,
}

impl<'a> Model for Item<'a> {
    ghost use Rattle.std.specs.Prelude.{option_copied};
    ghost use Rattle.mf_item.specs.Item as spec;

    ghost Value = { spec.Item };

    ghost view = { λ i. record {
      op = i.op;
      subject = i.subject.now;
      object = option_copied i.object;
      request = option_copied i.request;
      privilege = i.privilege;
      port = i.port;
    } };
}

impl<'a> Item<'a> {
    /// The item of these parts.
    pub fn new(
        op: CheckOp,
        subject: &'a SubjectView,
        object: Option<&'a ObjectView>,
        request: Option<&'a Request>,
        privilege: Option<Priv>,
        port: Option<(bool, u16)>,
    ) -> Item<'a>
        ensures { result ≡ record {
          op = op;
          subject = subject.now;
          object = option_copied object.entry;
          request = option_copied request.entry;
          privilege = privilege;
          port = port;
        } }
    {
        Item {
            op,
            subject,
            object,
            request,
            privilege,
            port,
        }
    }

    /// The operation.
    pub fn op(&self) -> CheckOp
        ensures { result ≡ self.now.op }
    {
        self.op
    }

    /// The subject.
    pub fn subject(&self) -> &'a SubjectView
        ensures { result.now ≡ self.now.subject }
    {
        self.subject
    }

    /// The object, where the operation has one.
    pub fn object(&self) -> Option<&'a ObjectView>
        ensures { option_copied result ≡ self.now.object }
    {
        self.object
    }

    /// What a relabel asks for.
    pub fn request(&self) -> Option<&'a Request>
        ensures { option_copied result ≡ self.now.request }
    {
        self.request
    }

    /// The privilege that is asked for.
    pub fn privilege(&self) -> Option<Priv>
        ensures { result ≡ self.now.privilege }
    {
        self.privilege
    }

    /// Of a binding whether it is of TCP, and not of UDP, and the port; port 0 leaves the choice to the kernel, as bind(2) has it.
    pub fn port(&self) -> Option<(bool, u16)>
        ensures { result ≡ self.now.port }
    {
        self.port
    }
}
