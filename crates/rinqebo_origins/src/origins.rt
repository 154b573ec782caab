//! Where the settings of tests come from. Each place is found once.
ghost use Rattle.std.specs.Prelude.{◌≡◌, ◌↔◌, All, IfOk, IfSome, IsTrue, map, option_map};
ghost use Rattle.std.specs.List.{AllZip};
ghost use Rattle.nextest_inheritance.specs.View.{borrowed_view};
ghost use Rattle.nextest_sources.specs.Sources.{source_kind_view, source_view};
ghost use Rattle.rinqebo_origins.specs.KnownOrigins.{AreOriginsAt, IsCopyOf, IsKnown};
ghost use Rattle.rinqebo_origins.specs.TestOrigins.{Basis};
ghost use Rattle.rinqebo_origins.specs.RulePlaces.{place_view};

use crate::{RuleKind, RulePlace, profile_grounds};
use nextest_sources::{ConfigSource, ConfigSourceKind};
use rinqebo_keys::SettingKey;
use rinqebo_report::{Origin, Written};
use rinqebo_request::Layer;
use std::alloc::{AllocError, Global};
use std::marker::Model;

/// Whether two sources are of one kind.
fn is_same_kind(kind: &ConfigSourceKind, other: &ConfigSourceKind) -> bool
    ensures { IsTrue result ↔ (source_kind_view kind.now ≡ source_kind_view other.now) }
{
    match (kind, other) {
        (ConfigSourceKind::Tool(tool), ConfigSourceKind::Tool(other)) => {
            tool.as_str() == other.as_str()
        }
        (ConfigSourceKind::Organisation, ConfigSourceKind::Organisation) => true,
        (ConfigSourceKind::ExplicitRepository, ConfigSourceKind::ExplicitRepository) => true,
        (ConfigSourceKind::DiscoveredRepository, ConfigSourceKind::DiscoveredRepository) => true,
        _ => false,
    }
}

/// Whether two sources are the same: of one kind, at one path.
pub fn is_same_source(source: &ConfigSource, other: &ConfigSource) -> bool
    ensures { IsTrue result ↔ (source_view source.now ≡ source_view other.now) }
{
    is_same_kind(source.kind(), other.kind())
        && source.path().absolute_path() == other.path().absolute_path()
}

/// Whether two kinds of rules are the same.
fn is_same_list(kind: RuleKind, other: RuleKind) -> bool
    ensures { IsTrue result ↔ (kind ≡ other) }
{
    match (kind, other) {
        (RuleKind::Override, RuleKind::Override) | (RuleKind::Script, RuleKind::Script) => true,
        _ => false,
    }
}

/// Whether two places are of one rule.
fn is_same_rule(rule: RulePlace<'_>, other: RulePlace<'_>) -> bool
    ensures { IsTrue result → place_view rule.entry ≡ place_view other.entry }
{
    rule.index == other.index
        && is_same_list(rule.kind, other.kind)
        && rule.profile == other.profile
        && is_same_source(rule.source, other.source)
}

/// Whether two values come from one rule, or without one both from the profile.
fn is_same_ground(rule: Option<RulePlace<'_>>, other: Option<RulePlace<'_>>) -> bool
    ensures { IsTrue result
        → option_map place_view rule.entry ≡ option_map place_view other.entry }
{
    match (rule, other) {
        (Some(rule), Some(other)) => is_same_rule(rule, other),
        (None, None) => true,
        _ => false,
    }
}

/// Whether two tables are the same, or both keys are in none.
fn is_same_table(table: Option<&str>, other: Option<&str>) -> bool
    ensures { IsTrue result → option_map (λ table. table.now) table.entry
        ≡ option_map (λ table. table.now) other.entry }
{
    match (table, other) {
        (Some(table), Some(other)) => table == other,
        (None, None) => true,
        _ => false,
    }
}

/// Where the value at a key comes from: from a rule, or without one from the profile.
#[derive(Drop)]
pub(crate) struct KnownOrigins<'c> {
    rule: Option<RulePlace<'c>>,
    key: SettingKey,
    origins: Vec<Origin>,
}

impl KnownOrigins<'_> {
    /// Whether they are those of a rule, or without one those of the profile, at a key. Most rules
    /// differ in their positions.
    fn are_of(&self, rule: Option<RulePlace<'_>>, key: SettingKey) -> bool
        ensures rule { IsTrue result
            → option_map place_view self.now.rule ≡ option_map place_view rule.entry }
        ensures table { IsTrue result → option_map (λ table. table.now) self.now.key.table
            ≡ option_map (λ table. table.now) key.table }
        ensures key { IsTrue result → self.now.key.key.now ≡ key.key.now }
    {
        is_same_ground(self.rule, rule)
            && self.key.key == key.key
            && is_same_table(self.key.table, key.table)
    }
}

/// A copy of an origin.
fn copied(origin: &Origin) -> Result<Origin, AllocError>
    ensures { IfOk result (IsCopyOf origin.now) }
{
    match origin {
        Origin::BuiltIn => Ok(Origin::BuiltIn),
        Origin::DefaultTable => Ok(Origin::DefaultTable),
        Origin::Written(written) => Ok(Origin::Written(Written {
            place: written.place,
            profile: written.profile.clone()?,
            part: written.part,
        })),
        Origin::File(place) => Ok(Origin::File(*place)),
    }
}

/// Copies of origins.
fn all_copied(alloc: Global, origins: &[Origin]) -> Result<Vec<Origin>, AllocError>
    ensures { IfOk result (λ copies. AllZip IsCopyOf origins.now copies.items) }
{
    let mut copies = Vec::new(alloc);
    for origin in origins {
        copies.push(copied(origin)?)?;
    }
    Ok(copies)
}

/// The origins at a key that are known of a rule, or without one of the profile.
fn known_of<'k>(
    known: &'k [KnownOrigins<'_>],
    rule: Option<RulePlace<'_>>,
    key: SettingKey,
) -> Option<&'k [Origin]>
    ensures { (basis : Basis) → All (IsKnown basis) known.now
        → IfSome result (λ origins. AreOriginsAt basis (option_map place_view rule.entry)
        (option_map (λ table. table.now) key.table) key.key.now origins.now) }
{
    for one in known {
        if one.are_of(rule, key) {
            return Some(one.origins.as_slice());
        }
    }
    None
}

/// Where the value at a key comes from, looked up in the files.
pub fn found(
    alloc: Global,
    layers: &[Layer],
    chain: &[&str],
    rule: Option<RulePlace<'_>>,
    key: SettingKey,
) -> Result<Vec<Origin>, AllocError>
    ensures { IfOk result (λ origins. AreOriginsAt
        (record { layers = layers.now; chain = borrowed_view chain.now })
        (option_map place_view rule.entry) (option_map (λ table. table.now) key.table) key.key.now
        origins.items) }
{
    match rule {
        Some(place) => place.origins_at_key(alloc, layers, key),
        None => profile_grounds(alloc, layers, chain, key),
    }
}

/// What is known so far of where settings come from.
#[derive(Drop)]
pub struct Origins<'l, 't, 'c> {
    layers: &'l [Layer<'t>],
    chain: &'l [&'l str],
    known: Vec<KnownOrigins<'c>>,
}

impl<'l, 't, 'c> Model for Origins<'l, 't, 'c> {
    ghost use Rattle.std.specs.Prelude.{All};
    ghost use Rattle.std.specs.Coded.{codes};
    ghost use Rattle.nextest_inheritance.specs.View.{borrowed_view};
    ghost use Rattle.nextest_tree.specs.contracts.tree.Tree as tree;
    ghost use Rattle.rinqebo_origins.specs.KnownOrigins.{IsKnown};
    ghost use Rattle.rinqebo_origins.specs.TestOrigins.{Basis};

    ghost Value = { Basis };

    ghost coded = { Prim.hlevel (codes, tree.the_row.coded) };

    ghost view = { λ origins. record {
      layers = origins.layers.now;
      chain = borrowed_view origins.chain.now;
    } };

    ghost invariant = { λ origins. All (IsKnown (record {
      layers = origins.layers.now;
      chain = borrowed_view origins.chain.now;
    })) origins.known.items };
}

impl<'l, 't, 'c> Origins<'l, 't, 'c> {
    /// Nothing is known yet of the settings of a chain of profiles.
    pub fn new(alloc: Global, layers: &'l [Layer<'t>], chain: &'l [&'l str]) -> Origins<'l, 't, 'c>
        ensures { result
            ≡ record { layers = layers.entry.now; chain = borrowed_view chain.entry.now } }
    {
        Origins {
            layers,
            chain,
            known: Vec::new(alloc),
        }
    }

    /// The layers of the files.
    pub fn layers(&self) -> &'l [Layer<'t>]
        ensures { result.now ≡ self.now.layers }
    {
        self.layers
    }

    /// Where the value at a key comes from: from a rule, or without one from the profile. It is
    /// looked up the first time.
    pub fn of(
        &mut self,
        alloc: Global,
        rule: Option<RulePlace<'c>>,
        key: SettingKey,
    ) -> Result<Vec<Origin>, AllocError>
        ensures same { self.new ≡ self.old }
        ensures told { IfOk result (λ origins. AreOriginsAt self.old
            (option_map place_view rule.entry) (option_map (λ table. table.now) key.table)
            key.key.now origins.items) }
    {
        if let Some(origins) = known_of(&self.known, rule, key) {
            return all_copied(alloc, origins);
        }
        let origins = found(alloc, self.layers, self.chain, rule, key)?;
        let copies = all_copied(alloc, &origins)?;
        self.known.push(KnownOrigins { rule, key, origins })?;
        Ok(copies)
    }
}
