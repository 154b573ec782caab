//! The platform specs of a rule.
ghost use Rattle.nextest_tables.specs.Values.{ArePlatforms, IsPlatform};
ghost use Rattle.nextest_tables.specs.Tables.{a_platform, platform_fields};

use nextest_tree::{
    Element, ElementCause, ElementFault, Key, Record, Tree, Walk, optional, read_record,
};
use std::alloc::Global;
use std::collections::BTreeMap;

/// The texts of the platform specs of a rule: each where the rule writes one.
#[derive(Drop)]
pub struct PlatformStrings {
    /// The spec that the host has to meet.
    pub host: Option<String>,
    /// The spec that the platform has to meet which a binary runs on.
    pub target: Option<String>,
}

impl Record for PlatformStrings {
    ghost fields = { platform_fields };

    ghost is_record = { ArePlatforms };

    fn keys() -> &'static [Key] {
        &[Key::Host, Key::Target]
    }

    fn read_fields(
        alloc: Global,
        members: &BTreeMap<String, Tree>,
        walk: &mut Walk,
    ) -> Result<Self, ElementFault> {
        let host = optional(alloc, members, Key::Host, walk)?;
        let target = optional(alloc, members, Key::Target, walk)?;
        Ok(PlatformStrings { host, target })
    }
}

#[tactic(auto, unfolding(nextest_tree::specs::Reads::reading, nextest_tree::specs::Reads::walk_view, nextest_tree::specs::Leaf::a_text, crate::specs::Tables::a_platform))]
impl Element for PlatformStrings {
    ghost schema = { a_platform };

    ghost is_value = { IsPlatform };

    fn read(alloc: Global, tree: &Tree, walk: &mut Walk) -> Result<Self, ElementFault> {
        match tree {
            Tree::Table(members) => read_record(alloc, members, walk),
            Tree::Text(_) => {
                let target = Some(String::read(alloc, tree, walk)?);
                Ok(PlatformStrings { host: None, target })
            }
            _ => Err(walk.fault(alloc, ElementCause::WrongKind)),
        }
    }
}

impl PlatformStrings {
    ghost use Rattle.std.specs.Prelude.{◌≡◌, IfOk, false};
    ghost use Rattle.nextest_tree.specs.declared.key.Key.TheVariants as keys;
    ghost use Rattle.nextest_tree.specs.Key.{key_text};
    ghost use Rattle.nextest_tree.specs.Node.{get};
    ghost use Rattle.nextest_tree.specs.Reads.{Gives, reading_field, walk_view};
    ghost use Rattle.nextest_tree.specs.View.{entries_view};
    ghost use Rattle.nextest_tables.specs.FileTexts.{platform_in};
    ghost use Rattle.nextest_tables.specs.View.{platform_view};

    /// The platform specs of a rule, none where it writes none.
    #[tactic(auto, using(crate::proofs::Platforms::platform_there, crate::proofs::Platforms::platform_absent))]
    pub(crate) fn at(
        alloc: Global,
        members: &BTreeMap<String, Tree>,
        walk: &mut Walk,
    ) -> Result<PlatformStrings, ElementFault>
        ensures value { IfOk result (λ platform. platform_view platform
            ≡ platform_in (get (key_text keys.Platform) (entries_view members.now.entries))) }
        ensures reads { Gives result walk.new (reading_field keys.Platform false a_platform
            (entries_view members.now.entries) (walk_view walk.old)) }
    {
        match optional(alloc, members, Key::Platform, walk)? {
            Some(platform) => Ok(platform),
            None => Ok(PlatformStrings {
                host: None,
                target: None,
            }),
        }
    }
}
