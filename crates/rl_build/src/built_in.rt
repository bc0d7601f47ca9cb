//! The modules that every wiki has.
ghost use Rattle.std.specs.Prelude.{◌≡◌, IfOk, IfSome, IsTrue};
ghost use Rattle.rl_names.specs.Name.{is_name};
ghost use Rattle.rl_build.specs.BuiltIn.{built_in_group, built_in_name, built_in_named, built_ins as all_built_in};
ghost use Rattle.rl_build.specs.Sheet.{sheet_of_built_in, IsLawful};

use crate::sheets::Sheet;
use rl_names::{NoMemory, Seq, Text};
use std::alloc::Global;

/// A module that every wiki has: the scripts and the styles of the site and of the viewer, and the viewer's options.
#[derive(Clone, Copy, Debug, PartialEq, Eq)]
pub enum BuiltIn {
    Site,
    SiteStyles,
    User,
    UserOptions,
    UserStyles,
}

/// All of them, in byte order of their names.
pub(crate) fn built_ins() -> [BuiltIn; 5]
    ensures { result ≡ all_built_in }
{
    [
        BuiltIn::Site,
        BuiltIn::SiteStyles,
        BuiltIn::User,
        BuiltIn::UserOptions,
        BuiltIn::UserStyles,
    ]
}

impl BuiltIn {
    pub fn name(self) -> &'static str
        ensures value { result.now ≡ built_in_name self }
        ensures name { IsTrue (is_name result.now) }
    {
        match self {
            BuiltIn::Site => "site",
            BuiltIn::SiteStyles => "site.styles",
            BuiltIn::User => "user",
            BuiltIn::UserOptions => "user.options",
            BuiltIn::UserStyles => "user.styles",
        }
    }

    /// The built-in module of this name.
    pub fn named(name: &[u8]) -> Option<BuiltIn>
        ensures value { result ≡ built_in_named name.now }
        ensures name { IfSome result (λ _. IsTrue (is_name name.now)) }
    {
        let all = built_ins();
        'all: for built_in in &all {
            if built_in.name().as_bytes() == name {
                return Some(*built_in);
            }
        }
        None
    }

    /// Empty for none.
    pub fn group(self) -> &'static str
        ensures { result.now ≡ built_in_group self }
    {
        match self {
            BuiltIn::Site => "",
            BuiltIn::SiteStyles => "site",
            BuiltIn::User | BuiltIn::UserStyles => "user",
            BuiltIn::UserOptions => "private",
        }
    }

    /// What is known of it.
    #[tactic(auto, using(crate::proofs::KnownLemmas::built_in_lawful))]
    pub(crate) fn sheet(self, alloc: Global) -> Result<Sheet, NoMemory>
        ensures value { IfOk result (λ s. s ≡ sheet_of_built_in self) }
        ensures lawful { IfOk result IsLawful }
    {
        let mut deps = Vec::new(alloc);
        if let BuiltIn::Site = self {
            deps.push(Text::of(alloc, "site.styles")?)?;
        }
        Ok(Sheet {
            group: Text::of(alloc, self.group())?,
            deps: Seq::of(deps),
            source: Text::of(alloc, "local")?,
            skip: None,
        })
    }
}
