//! The operations that policies are asked about.
ghost use Rattle.std.specs.Prelude.{◌≡◌};
ghost use Rattle.mf_item.specs.Operation.{operation_text};
ghost use Rattle.mf_item.specs.Named.{operation_named};

use std::fmt;

/// An operation that policies are asked about, modelled on the MAC Framework's check entry points. An open is one
/// operation for reading and one for writing; an unlink is a check of the directory and one of the entry. For
/// `VnodeCreate` and `VnodeUnlinkDir` the object is the directory, for `VnodeUnlink` the entry.
#[derive(Clone, Copy, Debug, PartialEq, Eq)]
pub enum CheckOp {
    VnodeLookup,
    VnodeOpenRead,
    VnodeOpenWrite,
    VnodeRead,
    VnodeWrite,
    VnodeExec,
    VnodeStat,
    VnodeReaddir,
    VnodeCreate,
    VnodeUnlinkDir,
    VnodeUnlink,
    VnodeSetmode,
    VnodeRelabel,
    PipeRead,
    PipeWrite,
    PipeStat,
    PipeRelabel,
    SocketSend,
    SocketDeliver,
    SocketReceive,
    SocketVisible,
    SocketRelabel,
    SocketBind,
    CredRelabel,
    ProcVisible,
    ProcSignal,
    ProcDebug,
    ProcSched,
    KldLoad,
    KldUnload,
    Priv,
}

impl CheckOp {
    /// The name that a history prints.
    pub fn name(self) -> &'static str
        ensures { result.now ≡ operation_text self }
    {
        match self {
            CheckOp::VnodeLookup => "vnode_lookup",
            CheckOp::VnodeOpenRead => "vnode_open_read",
            CheckOp::VnodeOpenWrite => "vnode_open_write",
            CheckOp::VnodeRead => "vnode_read",
            CheckOp::VnodeWrite => "vnode_write",
            CheckOp::VnodeExec => "vnode_exec",
            CheckOp::VnodeStat => "vnode_stat",
            CheckOp::VnodeReaddir => "vnode_readdir",
            CheckOp::VnodeCreate => "vnode_create",
            CheckOp::VnodeUnlinkDir => "vnode_unlink_dir",
            CheckOp::VnodeUnlink => "vnode_unlink",
            CheckOp::VnodeSetmode => "vnode_setmode",
            CheckOp::VnodeRelabel => "vnode_relabel",
            CheckOp::PipeRead => "pipe_read",
            CheckOp::PipeWrite => "pipe_write",
            CheckOp::PipeStat => "pipe_stat",
            CheckOp::PipeRelabel => "pipe_relabel",
            CheckOp::SocketSend => "socket_send",
            CheckOp::SocketDeliver => "socket_deliver",
            CheckOp::SocketReceive => "socket_receive",
            CheckOp::SocketVisible => "socket_visible",
            CheckOp::SocketRelabel => "socket_relabel",
            CheckOp::SocketBind => "socket_bind",
            CheckOp::CredRelabel => "cred_relabel",
            CheckOp::ProcVisible => "proc_visible",
            CheckOp::ProcSignal => "proc_signal",
            CheckOp::ProcDebug => "proc_debug",
            CheckOp::ProcSched => "proc_sched",
            CheckOp::KldLoad => "kld_load",
            CheckOp::KldUnload => "kld_unload",
            CheckOp::Priv => "priv",
        }
    }

    /// The operation of that name, as `name` writes it. None for every other text.
    #[tactic(auto, unfolding(crate::specs::Named::operation_named))]
    pub fn from_name(name: &str) -> Option<CheckOp>
        ensures { result ≡ operation_named name.now }
    {
        match name {
            "vnode_lookup" => Some(CheckOp::VnodeLookup),
            "vnode_open_read" => Some(CheckOp::VnodeOpenRead),
            "vnode_open_write" => Some(CheckOp::VnodeOpenWrite),
            "vnode_read" => Some(CheckOp::VnodeRead),
            "vnode_write" => Some(CheckOp::VnodeWrite),
            "vnode_exec" => Some(CheckOp::VnodeExec),
            "vnode_stat" => Some(CheckOp::VnodeStat),
            "vnode_readdir" => Some(CheckOp::VnodeReaddir),
            "vnode_create" => Some(CheckOp::VnodeCreate),
            "vnode_unlink_dir" => Some(CheckOp::VnodeUnlinkDir),
            "vnode_unlink" => Some(CheckOp::VnodeUnlink),
            "vnode_setmode" => Some(CheckOp::VnodeSetmode),
            "vnode_relabel" => Some(CheckOp::VnodeRelabel),
            "pipe_read" => Some(CheckOp::PipeRead),
            "pipe_write" => Some(CheckOp::PipeWrite),
            "pipe_stat" => Some(CheckOp::PipeStat),
            "pipe_relabel" => Some(CheckOp::PipeRelabel),
            "socket_send" => Some(CheckOp::SocketSend),
            "socket_deliver" => Some(CheckOp::SocketDeliver),
            "socket_receive" => Some(CheckOp::SocketReceive),
            "socket_visible" => Some(CheckOp::SocketVisible),
            "socket_relabel" => Some(CheckOp::SocketRelabel),
            "socket_bind" => Some(CheckOp::SocketBind),
            "cred_relabel" => Some(CheckOp::CredRelabel),
            "proc_visible" => Some(CheckOp::ProcVisible),
            "proc_signal" => Some(CheckOp::ProcSignal),
            "proc_debug" => Some(CheckOp::ProcDebug),
            "proc_sched" => Some(CheckOp::ProcSched),
            "kld_load" => Some(CheckOp::KldLoad),
            "kld_unload" => Some(CheckOp::KldUnload),
            "priv" => Some(CheckOp::Priv),
            _ => None,
        }
    }
}

impl fmt::Display for CheckOp {
    ghost use Rattle.std.specs.Prelude.{Some};

    ghost output = { λ op. Some (operation_text op) };

    fn fmt<W: fmt::Write>(&self, f: &mut fmt::Formatter<W>) -> fmt::Result {
        f.write_str(self.name())
    }
}
