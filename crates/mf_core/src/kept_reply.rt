//! Replies as a history keeps them.
ghost use Rattle.std.specs.Prelude.{◌≡◌, IfOk, IsOk, false};
ghost use Rattle.mf_plan.specs.declared.reply.Reply.TheVariants as replies;
ghost use Rattle.mf_perform.specs.Refused.{is_ok};

use mf_cred::FileView;
use mf_errno::{Errno, Module};
use mf_item::CheckOp;
use mf_plan::{Payload, Reply};
use std::alloc::{AllocError, Global};
use std::marker::Model;

/// A reply that a history keeps. Most take no memory: those of calls that are denied, refused, or done and hand back
/// nothing, attributes, a size or a descriptor. Contracts see the reply.
#[derive(Drop)]
pub struct KeptReply {
    kept: Kept,
}

/// How a reply is kept.
#[derive(Drop)]
pub enum Kept {
    /// The call was done, and handed nothing back.
    Done,
    Denied {
        errno: Errno,
        op: CheckOp,
        item: u8,
        by: Option<Module>,
    },
    Refused(Errno),
    /// The call was done, and handed back attributes and a size. In this order they take no more room than a box.
    Stat {
        dir: bool,
        mode: u16,
        uid: u32,
        gid: u32,
        size: u32,
    },
    Size(u32),
    Fd(u32),
    Other(Box<Reply>),
}

impl Model for KeptReply {
    ghost use Rattle.mf_plan.specs.declared.reply.Reply.{Reply};
    ghost use Rattle.mf_core.specs.Kept.{reply_kept};

    ghost Value = { Reply };

    ghost view = { λ k. reply_kept k.kept };
}

impl KeptReply {
    /// Keeps the reply.
    pub fn new(alloc: Global, reply: Reply) -> Result<KeptReply, AllocError>
        ensures value { IfOk result (λ kept. kept ≡ reply) }
        ensures memory { is_ok reply ≡ false → IsOk result }
    {
        match reply {
            Reply::Ok(payload) => KeptReply::done(alloc, payload),
            Reply::Denied {
                errno,
                op,
                item,
                by,
            } => {
                let kept = Kept::Denied {
                    errno,
                    op,
                    item,
                    by,
                };
                Ok(KeptReply { kept })
            }
            Reply::Refused(errno) => {
                let kept = Kept::Refused(errno);
                Ok(KeptReply { kept })
            }
        }
    }

    /// Keeps the reply to a call that was done and handed that back.
    #[inline(always)]
    pub(crate) fn done(alloc: Global, payload: Payload) -> Result<KeptReply, AllocError>
        ensures value { IfOk result (λ kept. kept ≡ replies.Ok payload) }
    {
        let kept = match payload {
            Payload::None => Kept::Done,
            Payload::Stat(file, size) => Kept::Stat {
                dir: file.dir,
                mode: file.mode,
                uid: file.uid,
                gid: file.gid,
                size,
            },
            Payload::Size(size) => Kept::Size(size),
            Payload::Fd(number) => Kept::Fd(number),
            other => Kept::Other(Box::new(alloc, Reply::Ok(other))?),
        };
        Ok(KeptReply { kept })
    }

    /// Whether the call was done: neither denied nor refused.
    pub fn is_ok(&self) -> bool
        ensures { result ≡ is_ok self.now }
    {
        match &self.kept {
            Kept::Done | Kept::Stat { .. } | Kept::Size(_) | Kept::Fd(_) => true,
            Kept::Denied { .. } | Kept::Refused(_) => false,
            Kept::Other(reply) => is_done(reply),
        }
    }

    /// Lends the reply.
    pub fn lend(&self) -> LentReply<'_>
        ensures { result ≡ self.now }
    {
        match &self.kept {
            Kept::Done => LentReply::of(Reply::Ok(Payload::None)),
            Kept::Denied {
                errno,
                op,
                item,
                by,
            } => LentReply::of(Reply::Denied {
                errno: *errno,
                op: *op,
                item: *item,
                by: *by,
            }),
            Kept::Refused(errno) => LentReply::of(Reply::Refused(*errno)),
            Kept::Stat {
                dir,
                mode,
                uid,
                gid,
                size,
            } => {
                let file = FileView {
                    uid: *uid,
                    gid: *gid,
                    mode: *mode,
                    dir: *dir,
                };
                LentReply::of(Reply::Ok(Payload::Stat(file, *size)))
            }
            Kept::Size(size) => LentReply::of(Reply::Ok(Payload::Size(*size))),
            Kept::Fd(number) => LentReply::of(Reply::Ok(Payload::Fd(*number))),
            Kept::Other(reply) => LentReply {
                kept: Some(reply),
                made: Reply::Ok(Payload::None),
            },
        }
    }
}

/// Whether the reply is that of a call which was done.
fn is_done(reply: &Reply) -> bool
    ensures { result ≡ is_ok reply.now }
{
    matches!(reply, Reply::Ok(_))
}

/// A reply that is lent out of a history. Contracts see the reply.
#[derive(Drop)]
pub struct LentReply<'a> {
    kept: Option<&'a Reply>,
    /// What is lent where none is kept as it is.
    made: Reply,
}

impl<'a> Model for LentReply<'a> {
    ghost use Rattle.std.specs.Prelude.{option_map, unwrap_or};
    ghost use Rattle.mf_plan.specs.declared.reply.Reply.{Reply};

    ghost Value = { Reply };

    ghost view = { λ l. unwrap_or (option_map (λ r. r.now) l.kept) l.made };
}

impl<'a> LentReply<'a> {
    fn of(made: Reply) -> LentReply<'a>
        ensures { result ≡ made }
    {
        LentReply { kept: None, made }
    }

    /// The reply.
    pub fn get(&self) -> &Reply
        ensures { result.now ≡ self.now }
    {
        match self.kept {
            None => &self.made,
            Some(reply) => reply,
        }
    }
}
