//! The load, from top to bottom: every source over the defaults, then all of them merged.
ghost use Rattle.std.specs.Prelude.{◌≡◌, ◌++◌, ◌∷◌, List, [], IfOk, IfSome, OnOk, map, option_map, reverse};
ghost use Rattle.std.specs.List.{flat_map};
ghost use Rattle.nextest_documents.specs.Laid.{IsLaid};
ghost use Rattle.nextest_engines.specs.Readings.{readings_view};
ghost use Rattle.nextest_load.specs.Kept.{IsKept};
ghost use Rattle.nextest_load.specs.Load.{IsLoad};
ghost use Rattle.nextest_load.specs.Loading.{HasLoaded, tree_so_far};
ghost use Rattle.nextest_load.specs.Meaning.{loaded_meaning};
ghost use Rattle.nextest_load.specs.Parts.{AreParts, AreTablesOf};
ghost use Rattle.nextest_load.specs.ScriptNames.{AreScriptNames};
ghost use Rattle.nextest_load.specs.Scripts.{setup_path, old_setup_path, wrapper_path};
ghost use Rattle.nextest_load.specs.Steps.{one_input_steps, input_steps, load_steps, merged_steps};
ghost use Rattle.nextest_load.specs.Trees.{tree_in, own_tree, merged_tree};
ghost use Rattle.nextest_rules.specs.Known.{known_names, sets_of};
ghost use Rattle.nextest_rules.specs.KnownView.{known_view, features_view};
ghost use Rattle.nextest_places.specs.Order.{IsOrder};
ghost use Rattle.nextest_places.specs.Standing.{ids_view};
ghost use Rattle.nextest_sources.specs.Endings.{Ran, ending};
ghost use Rattle.nextest_sources.specs.Inputs.{SourceText, inputs_view, sources_in, source_texts_of};
ghost use Rattle.nextest_sources.specs.InputsView.{input_view};
ghost use Rattle.nextest_sources.specs.Sources.{source_view};
ghost use Rattle.nextest_sources.specs.Warnings.{Warning};
ghost use Rattle.nextest_tables.specs.Defaults.{defaults};
ghost use Rattle.nextest_tree.specs.View.{tree_view};

use crate::kept::KeptTable;
use crate::loaded_config::LoadedConfig;
use crate::merged::{MergedTables, keep_merged};
use crate::parsed::{ParsedTexts, Unparsed};
use crate::scripts::ScriptNames;
use crate::source::{LoadedSource, SourceFile, read_source};
use nextest_documents::{Laid, lay_upon};
use nextest_elements::ConfigExperimental;
use nextest_engines::{Filters, ParseContext, Specs};
use nextest_rules::{KnownNames, LayerRules};
use nextest_sources::laws::law_first_duplicate;
use nextest_sources::{
    ConfigInputs, ConfigParseError, ConfigSource, ConfigWarnings, SourceInput, collect_inputs,
    refuse_duplicates, repository_source, text_of,
};
use nextest_tables::default_tree;
use nextest_tree::Tree;
use std::alloc::{AllocError, Global};
use std::collections::BTreeSet;

impl<F: Filters, S: Specs> LoadedConfig<F, S> {
    /// Loads the defaults, the files of tools and what lies above them, in this order, each above
    /// those before it.
    ///
    /// Of tools' files the first is the highest. Warnings are reported as they are met, also before
    /// a refusal.
    pub fn load<W: ConfigWarnings>(
        alloc: Global,
        inputs: &ConfigInputs<'_>,
        pcx: &ParseContext<'_, F, S>,
        warnings: &mut W,
    ) -> Result<LoadedConfig<F, S>, ConfigParseError>
        ensures loads { let engines = readings_view F.Filters S.Specs pcx.now in
            IsLoad (loaded_meaning F.meaning S.spec_meaning) engines
            (features_view inputs.now.features.now) (inputs_view inputs.now)
            (W.warnings warnings.old) (W.warnings warnings.new) result }
    {
        LoadedConfig::load_parsed(alloc, inputs, &Unparsed, pcx, warnings)
    }

    /// Loads as `load` does, and does not parse the texts that were parsed before.
    pub fn load_parsed<P: ParsedTexts, W: ConfigWarnings>(
        alloc: Global,
        inputs: &ConfigInputs<'_>,
        parsed: &P,
        pcx: &ParseContext<'_, F, S>,
        warnings: &mut W,
    ) -> Result<LoadedConfig<F, S>, ConfigParseError>
        ensures loads { let engines = readings_view F.Filters S.Specs pcx.now in
            IsLoad (loaded_meaning F.meaning S.spec_meaning) engines
            (features_view inputs.now.features.now) (inputs_view inputs.now)
            (W.warnings warnings.old) (W.warnings warnings.new) result }
    {
        law_first_duplicate();
        let parts = read_and_merge(alloc, inputs, parsed, pcx, warnings)?;
        let ConfigParts { tables, layers } = parts;
        Ok(LoadedConfig::new(tables, layers, pcx.filters.all()))
    }
}

/// The merged tree, and the rules of every source, the highest first.
#[derive(Drop)]
pub(crate) struct ConfigParts<F: Filters, S: Specs> {
    pub(crate) tables: MergedTables,
    pub(crate) layers: Vec<LayerRules<F, S>>,
}

/// Reads all inputs, the lowest first, each over those below it, and merges them.
fn read_and_merge<F: Filters, S: Specs, P: ParsedTexts, W: ConfigWarnings>(
    alloc: Global,
    inputs: &ConfigInputs<'_>,
    parsed: &P,
    pcx: &ParseContext<'_, F, S>,
    warnings: &mut W,
) -> Result<ConfigParts<F, S>, ConfigParseError>
    ensures ran { let engines = readings_view F.Filters S.Specs pcx.now in
        Ran (load_steps engines (features_view inputs.now.features.now) (inputs_view inputs.now))
        (W.warnings warnings.old) (W.warnings warnings.new) (ending result) }
    ensures parts { let engines = readings_view F.Filters S.Specs pcx.now in
        IfOk result (AreParts F.meaning S.spec_meaning engines
        (sources_in (inputs_view inputs.now))) }
{
    refuse_duplicates(alloc, inputs.tools)?;
    let repository = repository_source(inputs)?;
    let sources = collect_inputs(alloc, inputs)?;
    let loaded = read_layers(alloc, pcx, inputs.features, &sources, parsed, warnings)?;
    merge(alloc, &repository, loaded)
}

/// The sources that were loaded so far, laid over one another.
#[derive(Drop)]
pub(crate) struct LoadedLayers<F: Filters, S: Specs> {
    /// The names that they define.
    pub(crate) known: KnownNames,
    /// The tree of the defaults, if one was made upon which no source lies.
    pub(crate) defaults: Option<Tree>,
    /// The tree of all of them over the defaults, if there is one.
    pub(crate) merged: Option<Tree>,
    /// What a configuration keeps of this tree, where it is that of one source.
    pub(crate) kept: Option<KeptTable>,
    /// Their rules, the lowest first.
    pub(crate) layers: Vec<LayerRules<F, S>>,
    /// The ids of their scripts, in order.
    pub(crate) names: ScriptNames,
}

/// Reads inputs, the lowest first, each over those below it.
fn read_layers<F: Filters, S: Specs, P: ParsedTexts, W: ConfigWarnings>(
    alloc: Global,
    pcx: &ParseContext<'_, F, S>,
    features: &BTreeSet<ConfigExperimental>,
    inputs: &[SourceInput<'_>],
    parsed: &P,
    warnings: &mut W,
) -> Result<LoadedLayers<F, S>, ConfigParseError>
    ensures ran { let engines = readings_view F.Filters S.Specs pcx.now in
        Ran (input_steps engines (features_view features.now) [] (map input_view inputs.now))
        (W.warnings warnings.old) (W.warnings warnings.new) (ending result) }
    ensures loaded { let engines = readings_view F.Filters S.Specs pcx.now in
        IfOk result (HasLoaded F.meaning S.spec_meaning engines
        (flat_map source_texts_of (map input_view inputs.now))) }
{
    let mut loaded = LoadedLayers::new(alloc);
    for (place, input) in inputs.iter().enumerate() {
        loaded.read_layer(alloc, pcx, features, place, input, parsed, warnings)?;
    }
    Ok(loaded)
}

impl<F: Filters, S: Specs> LoadedLayers<F, S> {
    /// No source yet.
    fn new(alloc: Global) -> Self
        ensures known { known_view result.known ≡ sets_of (known_names []) }
        ensures defaults { result.defaults ≡ None }
        ensures merged { result.merged ≡ None }
        ensures kept { result.kept ≡ None }
        ensures layers { result.layers.items ≡ [] }
        ensures names { AreScriptNames [] result.names }
    {
        LoadedLayers {
            known: KnownNames::new(alloc),
            defaults: None,
            merged: None,
            kept: None,
            layers: Vec::new(alloc),
            names: ScriptNames::new(alloc),
        }
    }

    /// Lays a source over these, and adds its rules.
    fn add(&mut self, alloc: Global, loaded: LoadedSource<F, S>) -> Result<(), AllocError>
        ensures known { OnOk result (self.new.known ≡ self.old.known) }
        ensures defaults { (s : SourceText) → IsLaid (tree_in s) defaults loaded.laid
            → OnOk result (IfSome self.new.defaults (λ tree. tree_view tree ≡ defaults)) }
        ensures merged { (ss : List SourceText) (s : SourceText)
            → option_map tree_view self.old.merged ≡ tree_so_far ss
            → IsLaid (tree_in s) defaults loaded.laid
            → OnOk result (option_map tree_view self.new.merged ≡ tree_so_far (ss ++ s ∷ [])) }
        ensures kept { (ss : List SourceText) (s : SourceText)
            → option_map tree_view self.old.merged ≡ tree_so_far ss
            → IfSome loaded.kept (IsKept (own_tree s))
            → OnOk result (IfSome self.new.kept (IsKept (merged_tree (ss ++ s ∷ [])))) }
        ensures layers { OnOk result
            (self.new.layers.items ≡ self.old.layers.items ++ loaded.rules ∷ []) }
        ensures names { (ss : List SourceText) (s : SourceText)
            → AreScriptNames ss self.old.names
            → IsOrder setup_path s.text (ids_view loaded.names.setup)
            → IsOrder old_setup_path s.text (ids_view loaded.names.old_setup)
            → IsOrder wrapper_path s.text (ids_view loaded.names.wrapper)
            → OnOk result (AreScriptNames (ss ++ s ∷ []) self.new.names) }
    {
        let LoadedSource {
            laid,
            names,
            rules,
            kept,
        } = loaded;
        self.kept = kept_of(&self.merged, kept);
        let (merged, defaults) = lay_source(alloc, self.merged.take(), laid)?;
        self.merged = Some(merged);
        self.defaults = defaults;
        self.layers.push(rules)?;
        self.names.append(names)?;
        Ok(())
    }

    /// Reads one more input above these.
    fn read_layer<'x, P: ParsedTexts, W: ConfigWarnings>(
        &mut self,
        alloc: Global,
        pcx: &ParseContext<'_, F, S>,
        features: &BTreeSet<ConfigExperimental>,
        place: usize,
        input: &'x SourceInput<'x>,
        parsed: &'x P,
        warnings: &mut W,
    ) -> Result<(), ConfigParseError>
        requires { IfSome self.old.defaults (λ tree. tree_view tree ≡ defaults) }
        ensures ran { let engines = readings_view F.Filters S.Specs pcx.now in
            (below : List SourceText) → HasLoaded F.meaning S.spec_meaning engines below self.old
            → Ran (one_input_steps engines (features_view features.now) below
            (input_view input.now))
            (W.warnings warnings.old) (W.warnings warnings.new) (ending result) }
        ensures loaded { let engines = readings_view F.Filters S.Specs pcx.now in
            (below : List SourceText) → HasLoaded F.meaning S.spec_meaning engines below self.old
            → OnOk result (HasLoaded F.meaning S.spec_meaning engines
            (below ++ source_texts_of (input_view input.now)) self.new) }
    {
        let Some(text) = text_of(input)? else {
            return Ok(());
        };
        let file = SourceFile {
            source: &input.source,
            text,
            parsed: parsed.parse_of(place, text),
            is_lowest: self.merged.is_none(),
        };
        let lower = made_once(alloc, self.defaults.take())?;
        let loaded = read_source(
            alloc,
            pcx,
            features,
            &mut self.known,
            &file,
            lower,
            warnings,
        )?;
        self.add(alloc, loaded)?;
        Ok(())
    }
}

/// What stays kept of a source over those below it: nothing, if there is one below.
fn kept_of(below: &Option<Tree>, kept: Option<KeptTable>) -> Option<KeptTable>
    ensures { (ss : List SourceText) (s : SourceText)
        → option_map tree_view below.now ≡ tree_so_far ss
        → IfSome kept (IsKept (own_tree s))
        → IfSome result (IsKept (merged_tree (ss ++ s ∷ []))) }
{
    match below {
        Some(_) => None,
        None => kept,
    }
}

/// The tree of the defaults: the one that was made before, if it is still there.
fn made_once(alloc: Global, made: Option<Tree>) -> Result<Tree, AllocError>
    requires { IfSome made (λ tree. tree_view tree ≡ defaults) }
    ensures { IfOk result (λ tree. tree_view tree ≡ defaults) }
{
    match made {
        Some(tree) => Ok(tree),
        None => default_tree(alloc),
    }
}

/// Lays a source over those below it, and gives back the tree of the defaults, upon which it lay.
///
/// The tree of the lowest source is its file over the defaults, so that it keeps them.
fn lay_source(
    alloc: Global,
    below: Option<Tree>,
    laid: Laid,
) -> Result<(Tree, Option<Tree>), AllocError>
    ensures merged { (ss : List SourceText) (s : SourceText)
        → option_map tree_view below ≡ tree_so_far ss → IsLaid (tree_in s) defaults laid
        → IfOk result (λ trees. Some (tree_view trees.0) ≡ tree_so_far (ss ++ s ∷ [])) }
    ensures defaults { (s : SourceText) → IsLaid (tree_in s) defaults laid
        → IfOk result (λ trees. IfSome trees.1 (λ tree. tree_view tree ≡ defaults)) }
{
    match below {
        Some(below) => {
            let (tree, defaults) = laid.take_off(alloc)?;
            Ok((lay_upon(alloc, tree, below)?.tree, Some(defaults)))
        }
        None => Ok((laid.tree, None)),
    }
}

/// What a configuration keeps of the sources that were read.
fn merge<F: Filters, S: Specs>(
    alloc: Global,
    repository: &ConfigSource,
    loaded: LoadedLayers<F, S>,
) -> Result<ConfigParts<F, S>, ConfigParseError>
    ensures ran { (ss : List SourceText) → option_map tree_view loaded.merged ≡ tree_so_far ss
        → IfSome loaded.kept (IsKept (merged_tree ss)) → (before : List Warning)
        → Ran (merged_steps (source_view repository.now) ss) before before (ending result) }
    ensures parts { (ss : List SourceText) → option_map tree_view loaded.merged ≡ tree_so_far ss
        → IfSome loaded.kept (IsKept (merged_tree ss)) → AreScriptNames ss loaded.names
        → IfOk result (λ parts. AreTablesOf ss parts.tables) }
    ensures layers { IfOk result (λ parts. parts.layers.items ≡ reverse loaded.layers.items) }
{
    let LoadedLayers {
        merged,
        kept,
        mut layers,
        names,
        ..
    } = loaded;
    let tree = whole_tree(alloc, merged)?;
    let tables = keep_merged(alloc, repository, names, &tree, kept)?;
    layers.reverse();
    Ok(ConfigParts { tables, layers })
}

/// The tree of all sources, which is that of the defaults where there is none.
fn whole_tree(alloc: Global, merged: Option<Tree>) -> Result<Tree, AllocError>
    ensures { (ss : List SourceText) → option_map tree_view merged ≡ tree_so_far ss
        → IfOk result (λ tree. tree_view tree ≡ merged_tree ss) }
{
    match merged {
        Some(tree) => Ok(tree),
        None => default_tree(alloc),
    }
}
