//! Which of two answers counts, as the kernel's `mac_error_select` decides it.
ghost use Rattle.std.specs.Prelude.{◌≡◌};
ghost use Rattle.mf_errno.specs.OfTwo.{select};

use crate::Errno;

/// The more significant of two answers: EDEADLK, EINVAL, ESRCH, ENOENT, EACCES and EPERM win in this order; of any
/// other two the newer wins, unless it is success.
#[tactic(auto, unfolding(crate::specs::OfTwo::select))]
#[inline(always)]
pub fn select(newer: Errno, older: Errno) -> Errno
    ensures { result ≡ select newer older }
{
    match (newer, older) {
        (Errno::Edeadlk, _) | (_, Errno::Edeadlk) => Errno::Edeadlk,
        (Errno::Einval, _) | (_, Errno::Einval) => Errno::Einval,
        (Errno::Esrch, _) | (_, Errno::Esrch) => Errno::Esrch,
        (Errno::Enoent, _) | (_, Errno::Enoent) => Errno::Enoent,
        (Errno::Eacces, _) | (_, Errno::Eacces) => Errno::Eacces,
        (Errno::Eperm, _) | (_, Errno::Eperm) => Errno::Eperm,
        (Errno::Success, _) => older,
        _ => newer,
    }
}
