//! The error numbers of errno(2) that policies answer and calls return.
ghost use Rattle.std.specs.Prelude.{◌≡◌};
ghost use Rattle.mf_errno.specs.Errno.{number_of, errno_named};
ghost use Rattle.mf_errno.specs.Names.{error_text, all_errors};

use std::fmt;

/// What a policy answers or a call returns: success, or an error.
#[derive(Clone, Copy, Debug, PartialEq, Eq)]
pub enum Errno {
    Success,
    Eperm,
    Enoent,
    Esrch,
    Ebadf,
    Edeadlk,
    Enomem,
    Eacces,
    Ebusy,
    Eexist,
    Enotdir,
    Eisdir,
    Einval,
    Enfile,
    Emfile,
    Efbig,
    Eagain,
    Enobufs,
    Enotempty,
}

impl Errno {
    /// Success and every error, by rising number.
    pub fn all() -> &'static [Errno]
        ensures { result.now ≡ all_errors }
    {
        &[
            Errno::Success,
            Errno::Eperm,
            Errno::Enoent,
            Errno::Esrch,
            Errno::Ebadf,
            Errno::Edeadlk,
            Errno::Enomem,
            Errno::Eacces,
            Errno::Ebusy,
            Errno::Eexist,
            Errno::Enotdir,
            Errno::Eisdir,
            Errno::Einval,
            Errno::Enfile,
            Errno::Emfile,
            Errno::Efbig,
            Errno::Eagain,
            Errno::Enobufs,
            Errno::Enotempty,
        ]
    }

    /// The number that errno(2) gives the error, and 0 for success.
    pub fn number(self) -> u32
        ensures { result ≡ number_of self }
    {
        match self {
            Errno::Success => 0,
            Errno::Eperm => 1,
            Errno::Enoent => 2,
            Errno::Esrch => 3,
            Errno::Ebadf => 9,
            Errno::Edeadlk => 11,
            Errno::Enomem => 12,
            Errno::Eacces => 13,
            Errno::Ebusy => 16,
            Errno::Eexist => 17,
            Errno::Enotdir => 20,
            Errno::Eisdir => 21,
            Errno::Einval => 22,
            Errno::Enfile => 23,
            Errno::Emfile => 24,
            Errno::Efbig => 27,
            Errno::Eagain => 35,
            Errno::Enobufs => 55,
            Errno::Enotempty => 66,
        }
    }

    /// The name as a history prints it: that of errno(2), and `ok` for success.
    pub fn name(self) -> &'static str
        ensures { result.now ≡ error_text self }
    {
        match self {
            Errno::Success => "ok",
            Errno::Eperm => "EPERM",
            Errno::Enoent => "ENOENT",
            Errno::Esrch => "ESRCH",
            Errno::Ebadf => "EBADF",
            Errno::Edeadlk => "EDEADLK",
            Errno::Enomem => "ENOMEM",
            Errno::Eacces => "EACCES",
            Errno::Ebusy => "EBUSY",
            Errno::Eexist => "EEXIST",
            Errno::Enotdir => "ENOTDIR",
            Errno::Eisdir => "EISDIR",
            Errno::Einval => "EINVAL",
            Errno::Enfile => "ENFILE",
            Errno::Emfile => "EMFILE",
            Errno::Efbig => "EFBIG",
            Errno::Eagain => "EAGAIN",
            Errno::Enobufs => "ENOBUFS",
            Errno::Enotempty => "ENOTEMPTY",
        }
    }

    /// The error of that name, as `name` writes it. None for every other text.
    #[tactic(auto, unfolding(crate::specs::Errno::errno_named))]
    pub fn from_name(name: &str) -> Option<Errno>
        ensures { result ≡ errno_named name.now }
    {
        match name {
            "ok" => Some(Errno::Success),
            "EPERM" => Some(Errno::Eperm),
            "ENOENT" => Some(Errno::Enoent),
            "ESRCH" => Some(Errno::Esrch),
            "EBADF" => Some(Errno::Ebadf),
            "EDEADLK" => Some(Errno::Edeadlk),
            "ENOMEM" => Some(Errno::Enomem),
            "EACCES" => Some(Errno::Eacces),
            "EBUSY" => Some(Errno::Ebusy),
            "EEXIST" => Some(Errno::Eexist),
            "ENOTDIR" => Some(Errno::Enotdir),
            "EISDIR" => Some(Errno::Eisdir),
            "EINVAL" => Some(Errno::Einval),
            "ENFILE" => Some(Errno::Enfile),
            "EMFILE" => Some(Errno::Emfile),
            "EFBIG" => Some(Errno::Efbig),
            "EAGAIN" => Some(Errno::Eagain),
            "ENOBUFS" => Some(Errno::Enobufs),
            "ENOTEMPTY" => Some(Errno::Enotempty),
            _ => None,
        }
    }
}

impl fmt::Display for Errno {
    ghost use Rattle.std.specs.Prelude.{Some};

    ghost output = { λ errno. Some (error_text errno) };

    fn fmt<W: fmt::Write>(&self, f: &mut fmt::Formatter<W>) -> fmt::Result {
        f.write_str(self.name())
    }
}
