//! The policy modules that the model knows, a part of those of mac(4).
ghost use Rattle.std.specs.Prelude.{◌≡◌};
ghost use Rattle.mf_errno.specs.Same.{same_module};
ghost use Rattle.mf_errno.specs.Names.{all_modules, module_named, module_text};

use std::fmt;

/// A policy module.
#[derive(Clone, Copy, Debug, PartialEq, Eq)]
pub enum Module {
    Biba,
    Mls,
    Lomac,
    Partition,
    Bsdextended,
    Priority,
    Seeotheruids,
    Portacl,
}

impl Module {
    /// Every module.
    pub fn all() -> [Module; 8]
        ensures { result ≡ all_modules }
    {
        [
            Module::Biba,
            Module::Mls,
            Module::Lomac,
            Module::Partition,
            Module::Bsdextended,
            Module::Priority,
            Module::Seeotheruids,
            Module::Portacl,
        ]
    }

    /// The name of the module's manual page, as kldload(8) takes it.
    pub fn name(self) -> &'static str
        ensures { result.now ≡ module_text self }
    {
        match self {
            Module::Biba => "mac_biba",
            Module::Mls => "mac_mls",
            Module::Lomac => "mac_lomac",
            Module::Partition => "mac_partition",
            Module::Bsdextended => "mac_bsdextended",
            Module::Priority => "mac_priority",
            Module::Seeotheruids => "mac_seeotheruids",
            Module::Portacl => "mac_portacl",
        }
    }

    /// The module of that name. None for every other text.
    #[tactic(auto, unfolding(crate::specs::Names::module_named))]
    pub fn from_name(name: &str) -> Option<Module>
        ensures { result ≡ module_named name.now }
    {
        match name {
            "mac_biba" => Some(Module::Biba),
            "mac_mls" => Some(Module::Mls),
            "mac_lomac" => Some(Module::Lomac),
            "mac_partition" => Some(Module::Partition),
            "mac_bsdextended" => Some(Module::Bsdextended),
            "mac_priority" => Some(Module::Priority),
            "mac_seeotheruids" => Some(Module::Seeotheruids),
            "mac_portacl" => Some(Module::Portacl),
            _ => None,
        }
    }

    /// Whether the two are one module.
    pub fn is(self, other: Module) -> bool
        ensures { result ≡ same_module self other }
    {
        self == other
    }
}

impl fmt::Display for Module {
    ghost use Rattle.std.specs.Prelude.{Some};

    ghost output = { λ policy. Some (module_text policy) };

    fn fmt<W: fmt::Write>(&self, f: &mut fmt::Formatter<W>) -> fmt::Result {
        f.write_str(self.name())
    }
}

impl Default for Module {
    ghost use Rattle.mf_errno.specs.declared.module.Module.TheVariants as modules;

    ghost is_default = { λ value. value ≡ modules.Biba };

    fn default() -> Module {
        Module::Biba
    }
}
