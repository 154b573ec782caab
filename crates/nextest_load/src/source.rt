//! One source: its text over the defaults, what it defines, and its rules.
ghost use Rattle.std.specs.Prelude.{◌≡◌, ℕ, List, [], IfOk, IfSome, OnOk, Some, None, map};
ghost use Rattle.std.specs.BTreeSet.{contains_text};
ghost use Rattle.nextest_engines.specs.Readings.{readings_view};
ghost use Rattle.nextest_documents.specs.Laid.{IsLaid};
ghost use Rattle.nextest_documents.specs.Text.{tree_of};
ghost use Rattle.nextest_load.specs.Kept.{IsKept};
ghost use Rattle.nextest_load.specs.Loading.{source_text_view, source_layer};
ghost use Rattle.nextest_load.specs.Parsed.{IsParseOf};
ghost use Rattle.nextest_load.specs.Scripts.{setup_path, old_setup_path, wrapper_path};
ghost use Rattle.nextest_load.specs.Steps.{document_cause, element_cause, in_byte_order, own_steps, file_steps, source_steps};
ghost use Rattle.nextest_load.specs.Trees.{tree_in, own_tree, own_file};
ghost use Rattle.nextest_rules.specs.Known.{known_names, known_to, sets_of};
ghost use Rattle.nextest_rules.specs.KnownView.{known_view, features_view};
ghost use Rattle.nextest_rules.specs.Meaning.{layer_meaning};
ghost use Rattle.nextest_rules.specs.Rules.{layer_of};
ghost use Rattle.nextest_rules.specs.Steps.{warn_if_some};
ghost use Rattle.nextest_rules.specs.View.{layer_view};
ghost use Rattle.nextest_places.specs.Order.{IsOrder};
ghost use Rattle.nextest_places.specs.Standing.{ids_view};
ghost use Rattle.nextest_sources.specs.Endings.{Found, Ran, ending};
ghost use Rattle.nextest_sources.specs.InputFaults.{fault_at_source};
ghost use Rattle.nextest_sources.specs.Inputs.{SourceText};
ghost use Rattle.nextest_sources.specs.Sources.{source_view};
ghost use Rattle.nextest_sources.specs.Warnings.{unknown_keys};
ghost use Rattle.nextest_tables.specs.Complete.{HasCompleteDefault, IsMergedTree};
ghost use Rattle.nextest_tables.specs.Defaults.{defaults};
ghost use Rattle.nextest_tables.specs.FileTexts.{FileText, file_text};
ghost use Rattle.nextest_tables.specs.Scripts.{AreFileScripts, file_scripts_view};
ghost use Rattle.nextest_tables.specs.Tables.{a_file};
ghost use Rattle.nextest_tables.specs.View.{file_table_view};
ghost use Rattle.nextest_tree.specs.Node.{Node};
ghost use Rattle.nextest_tree.specs.Schema.{is_one_of, unknown};
ghost use Rattle.nextest_tree.specs.View.{tree_view};

use crate::kept::{CheckedTable, KeptTable, check_table};
use crate::parsed::ParsedText;
use crate::scripts::ScriptNames;
use nextest_documents::{Laid, TextFault, copy_tree, lay_upon, tree_from_text};
use nextest_elements::ConfigExperimental;
use nextest_engines::{Filters, ParseContext, Specs};
use nextest_rules::{KnownNames, LayerRules, check_definitions};
use nextest_sources::{ConfigParseError, ConfigParseErrorKind, ConfigSource, ConfigWarnings};
use nextest_tables::{FileTable, read_file};
use nextest_tree::{Tree, Walk};
use std::alloc::Global;
use std::collections::BTreeSet;

/// A source with the text of its file.
#[derive(Clone, Copy)]
pub(crate) struct SourceFile<'a> {
    pub(crate) source: &'a ConfigSource,
    pub(crate) text: &'a str,
    /// What the text was parsed to before the load, if it was.
    pub(crate) parsed: Option<ParsedText<'a>>,
    /// Whether no source below it gave text.
    pub(crate) is_lowest: bool,
}

/// Parses a source's text.
fn parse_text(alloc: Global, file: &SourceFile<'_>) -> Result<Tree, ConfigParseError>
    ensures found { let s = source_text_view file.now in
        Found (fault_at_source s.source (document_cause (tree_of s.text))) (ending result) }
    ensures document { IfOk result (λ tree. tree_of file.now.text.now ≡ Some (tree_view tree)) }
{
    match tree_from_text(alloc, file.text) {
        Ok(tree) => Ok(tree),
        Err(TextFault::NotDocument(fault)) => Err(ConfigParseError::at(
            file.source,
            ConfigParseErrorKind::BuildError(fault.message),
        )),
        Err(TextFault::Memory) => Err(ConfigParseError::memory()),
    }
}

/// Copies the tree that a source's text was parsed to, or its fault.
fn copy_parsed(
    alloc: Global,
    file: &SourceFile<'_>,
    parsed: ParsedText<'_>,
) -> Result<Tree, ConfigParseError>
    requires { IsParseOf file.now.text.now parsed }
    ensures found { let s = source_text_view file.now in
        Found (fault_at_source s.source (document_cause (tree_of s.text))) (ending result) }
    ensures document { IfOk result (λ tree. tree_of file.now.text.now ≡ Some (tree_view tree)) }
{
    match parsed {
        ParsedText::Document(tree) => Ok(copy_tree(alloc, tree)?),
        ParsedText::NotDocument(message) => {
            let message = String::from_str(alloc, message)?;
            let kind = ConfigParseErrorKind::BuildError(message);
            Err(ConfigParseError::at(file.source, kind))
        }
    }
}

/// The tree of a source's text, which is parsed unless it was parsed before.
fn read_text(alloc: Global, file: &SourceFile<'_>) -> Result<Tree, ConfigParseError>
    requires { IfSome file.now.parsed (IsParseOf file.now.text.now) }
    ensures found { let s = source_text_view file.now in
        Found (fault_at_source s.source (document_cause (tree_of s.text))) (ending result) }
    ensures document { IfOk result (λ tree. tree_of file.now.text.now ≡ Some (tree_view tree)) }
    ensures tree { IfOk result (λ tree. tree_view tree ≡ tree_in (source_text_view file.now)) }
{
    match file.parsed {
        Some(parsed) => copy_parsed(alloc, file, parsed),
        None => parse_text(alloc, file),
    }
}

/// The tree of a source over that of the defaults, and the ids of its scripts.
fn read_tree(
    alloc: Global,
    file: &SourceFile<'_>,
    lower: Tree,
) -> Result<(Laid, ScriptNames), ConfigParseError>
    requires parsed { IfSome file.now.parsed (IsParseOf file.now.text.now) }
    requires lower { tree_view lower ≡ defaults }
    ensures found { let s = source_text_view file.now in
        Found (fault_at_source s.source (document_cause (tree_of s.text))) (ending result) }
    ensures laid { IfOk result
        (λ read. IsLaid (tree_in (source_text_view file.now)) defaults read.0) }
    ensures setup { IfOk result
        (λ read. IsOrder setup_path file.now.text.now (ids_view read.1.setup)) }
    ensures old_setup { IfOk result
        (λ read. IsOrder old_setup_path file.now.text.now (ids_view read.1.old_setup)) }
    ensures wrapper { IfOk result
        (λ read. IsOrder wrapper_path file.now.text.now (ids_view read.1.wrapper)) }
{
    let tree = read_text(alloc, file)?;
    let names = ScriptNames::of_text(alloc, file.text, &tree)?;
    let laid = lay_upon(alloc, tree, lower)?;
    Ok((laid, names))
}

/// What a tree says, and its unknown paths; its first fault has the source.
pub(crate) fn read_elements(
    alloc: Global,
    source: &ConfigSource,
    tree: &Tree,
) -> Result<(FileTable, BTreeSet<String>), ConfigParseError>
    ensures found { let cause = element_cause (tree_view tree.now) in
        Found (fault_at_source (source_view source.now) cause) (ending result) }
    ensures value { IfOk result (λ read. file_table_view read.0 ≡ file_text (tree_view tree.now)) }
    ensures scripts { IfOk result
        (λ read. AreFileScripts (tree_view tree.now) (file_scripts_view read.0)) }
    ensures unknown { IfOk result
        (λ read. (q : List ℕ)
        → contains_text read.1 q ≡ is_one_of (unknown a_file [] (tree_view tree.now)) q) }
    ensures complete { (files : List Node) → IsMergedTree files (tree_view tree.now)
        → IfOk result (λ read. HasCompleteDefault (file_table_view read.0)) }
{
    let mut walk = Walk::new(alloc);
    match read_file(alloc, tree, &mut walk) {
        Ok(table) => {
            let Walk { unknown, .. } = walk;
            Ok((table, unknown))
        }
        Err(fault) => Err(ConfigParseError::element(source, fault)),
    }
}

/// Tells of unknown keys, if there are any.
fn warn_of_unknown<W: ConfigWarnings>(
    alloc: Global,
    source: &ConfigSource,
    paths: &BTreeSet<String>,
    warnings: &mut W,
) -> Result<(), ConfigParseError>
    ensures { (all : List (List ℕ))
        → ((q : List ℕ) → contains_text paths.now q ≡ is_one_of all q)
        → Ran (warn_if_some (unknown_keys (source_view source.now)) (in_byte_order all))
        (W.warnings warnings.old) (W.warnings warnings.new) (ending result) }
{
    if paths.len() == 0 {
        return Ok(());
    }
    warnings.unknown_config_keys(alloc, source, paths)?;
    Ok(())
}

/// What a source says over the defaults, and the warning of its unknown keys.
fn read_own<W: ConfigWarnings>(
    alloc: Global,
    source: &ConfigSource,
    own: &Tree,
    warnings: &mut W,
) -> Result<FileTable, ConfigParseError>
    ensures ran { Ran (own_steps (source_view source.now) (tree_view own.now))
        (W.warnings warnings.old) (W.warnings warnings.new) (ending result) }
    ensures sound { IfOk result (λ _. element_cause (tree_view own.now) ≡ None) }
    ensures value { IfOk result (λ table. file_table_view table ≡ file_text (tree_view own.now)) }
    ensures scripts { IfOk result
        (λ table. AreFileScripts (tree_view own.now) (file_scripts_view table)) }
    ensures complete { (files : List Node) → IsMergedTree files (tree_view own.now)
        → IfOk result (λ table. HasCompleteDefault (file_table_view table)) }
{
    let (table, unknown) = read_elements(alloc, source, own)?;
    warn_of_unknown(alloc, source, &unknown, warnings)?;
    Ok(table)
}

/// The rules of a file over those below it, or its first fault, and what a configuration keeps of
/// it, if it is the lowest. Its names go to those that are known.
fn read_rules<F: Filters, S: Specs, W: ConfigWarnings>(
    alloc: Global,
    pcx: &ParseContext<'_, F, S>,
    features: &BTreeSet<ConfigExperimental>,
    known: &mut KnownNames,
    file: &SourceFile<'_>,
    own: &Tree,
    warnings: &mut W,
) -> Result<CheckedTable<F, S>, ConfigParseError>
    ensures ran { let engines = readings_view F.Filters S.Specs pcx.now in
        (below : List FileText) → known_view known.old ≡ sets_of (known_names below)
        → Ran (file_steps engines (features_view features.now) below
        (source_view file.now.source.now) (tree_view own.now))
        (W.warnings warnings.old) (W.warnings warnings.new) (ending result) }
    ensures rules { let engines = readings_view F.Filters S.Specs pcx.now in
        IfOk result
        (λ checked. layer_meaning F.meaning S.spec_meaning (layer_view checked.rules)
        ≡ layer_of engines (source_view file.now.source.now)
        (file_text (tree_view own.now)).profiles) }
    ensures known { (below : List FileText) → known_view known.old ≡ sets_of (known_names below)
        → OnOk result
        (known_view known.new ≡ sets_of (known_to below (file_text (tree_view own.now)))) }
    ensures kept { IfOk result (λ checked. IfSome checked.kept (IsKept (tree_view own.now))) }
{
    let table = read_own(alloc, file.source, own, warnings)?;
    check_definitions(alloc, features, file.source, &table, warnings)?;
    check_table(alloc, pcx, known, file, table, warnings)
}

/// A source that was loaded: its tree over the defaults, the ids of its scripts, its rules, and
/// what a configuration keeps of it, if it is the lowest.
#[derive(Drop)]
pub(crate) struct LoadedSource<F: Filters, S: Specs> {
    pub(crate) laid: Laid,
    pub(crate) names: ScriptNames,
    pub(crate) rules: LayerRules<F, S>,
    pub(crate) kept: Option<KeptTable>,
}

/// Reads a source over the defaults and those below it. Its names go to those that are known.
pub(crate) fn read_source<F: Filters, S: Specs, W: ConfigWarnings>(
    alloc: Global,
    pcx: &ParseContext<'_, F, S>,
    features: &BTreeSet<ConfigExperimental>,
    known: &mut KnownNames,
    file: &SourceFile<'_>,
    lower: Tree,
    warnings: &mut W,
) -> Result<LoadedSource<F, S>, ConfigParseError>
    requires parsed { IfSome file.now.parsed (IsParseOf file.now.text.now) }
    requires lower { tree_view lower ≡ defaults }
    ensures ran { let engines = readings_view F.Filters S.Specs pcx.now in
        (below : List SourceText)
        → known_view known.old ≡ sets_of (known_names (map own_file below))
        → Ran (source_steps engines (features_view features.now) below (source_text_view file.now))
        (W.warnings warnings.old) (W.warnings warnings.new) (ending result) }
    ensures laid { IfOk result
        (λ l. IsLaid (tree_in (source_text_view file.now)) defaults l.laid) }
    ensures rules { let engines = readings_view F.Filters S.Specs pcx.now in
        IfOk result
        (λ l. layer_meaning F.meaning S.spec_meaning (layer_view l.rules)
        ≡ source_layer engines (source_text_view file.now)) }
    ensures setup { IfOk result
        (λ l. IsOrder setup_path file.now.text.now (ids_view l.names.setup)) }
    ensures old_setup { IfOk result
        (λ l. IsOrder old_setup_path file.now.text.now (ids_view l.names.old_setup)) }
    ensures wrapper { IfOk result
        (λ l. IsOrder wrapper_path file.now.text.now (ids_view l.names.wrapper)) }
    ensures known { (below : List SourceText)
        → known_view known.old ≡ sets_of (known_names (map own_file below))
        → OnOk result (known_view known.new
        ≡ sets_of (known_to (map own_file below) (own_file (source_text_view file.now)))) }
    ensures kept { IfOk result
        (λ l. IfSome l.kept (IsKept (own_tree (source_text_view file.now)))) }
{
    let (laid, names) = read_tree(alloc, file, lower)?;
    let checked = read_rules(alloc, pcx, features, known, file, &laid.tree, warnings)?;
    let CheckedTable { rules, kept } = checked;
    Ok(LoadedSource {
        laid,
        names,
        rules,
        kept,
    })
}
