//! The composition of grants.
ghost use Rattle.std.specs.Prelude.{◌↔◌, IsTrue, Contains, true};

/// Whether a privilege is granted: one policy that grants it is enough, as the kernel's `mac_priv_grant` has it.
pub fn granted(grants: &[bool]) -> bool
    ensures { IsTrue result ↔ Contains grants.now true }
{
    grants.contains(&true)
}
