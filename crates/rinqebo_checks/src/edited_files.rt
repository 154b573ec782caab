//! The files of a run with edits, and the load of these.
ghost use Rattle.std.specs.Prelude.{◌≡◌, ◌+◌, [], IfOk, IfSome, None, OnOk, Some, length, map, option_map, string_bytes};
ghost use Rattle.nextest_documents.specs.Text.{tree_of};
ghost use Rattle.nextest_rules.specs.KnownView.{features_view};
ghost use Rattle.nextest_sources.specs.Endings.{IsMemory};
ghost use Rattle.nextest_sources.specs.Inputs.{inputs_view};
ghost use Rattle.nextest_sources.specs.Sources.{file_view, outcome_view, tool_file_view};
ghost use Rattle.nextest_tree.specs.View.{tree_view};
ghost use Rattle.rinqebo_faults.specs.Edits.{edits_view, with_edits};
ghost use Rattle.rinqebo_findings.specs.Later.{document_at};
ghost use Rattle.rinqebo_load.specs.Sessions.{files_view};
ghost use Rattle.rinqebo_checks.specs.LeavingOut.{LeavesOutSettings, refused_edits};
ghost use Rattle.rinqebo_checks.specs.ReadAgain.{file_again, files_again, reading_view, text_in_place, text_or, tool_again, tools_again};
ghost use Rattle.rinqebo_checks.specs.Rounds.{AreAmong, IsRound, edited_view};

use crate::leaving_out::{leave_out_refused, leave_out_settings, switch_on};
use nextest_documents::{TextFault, lay_over, tree_from_text};
use nextest_elements::ConfigExperimental;
use nextest_load::LoadedConfig;
use nextest_shape::file_faults;
use nextest_sources::{
    ConfigFileSelection, ConfigInputs, ConfigParseError, ConfigParseErrorKind, ConfigPath,
    DefaultConfigWarnings, FileInput, ReadOutcome, ToolConfigFile,
};
use nextest_tables::default_tree;
use nextest_tree::Tree;
use rinqebo_faults::{Edits, edited_document};
use rinqebo_findings::SourceAt;
use rinqebo_load::Session;
use rinqebo_request::Layer;
use std::alloc::{AllocError, Global};
use std::collections::BTreeSet;

/// What the files of a run are read with.
#[derive(Drop)]
pub struct Reading {
    /// What the files are read without.
    pub edits: Edits,
    /// The places of the sources that are not read.
    pub unread: BTreeSet<usize>,
    /// The experimental features that are switched on beside those of the session.
    pub switched_on: BTreeSet<ConfigExperimental>,
}

/// The files of a session with edits.
struct EditedFiles {
    /// The repository's file where it is looked for.
    shared: FileInput,
    /// The repository's file that a user named.
    config_file: Option<FileInput>,
    /// The organisation's file.
    organisation_file: Option<FileInput>,
    /// The files of tools.
    tools: Vec<ToolConfigFile>,
}

// Written out, so that the proof of a caller sees one call and not the drop of each part.
impl Drop for EditedFiles {
    fn drop(self) {
        let EditedFiles {
            shared: _shared,
            config_file: _config_file,
            organisation_file: _organisation_file,
            tools: _tools,
        } = self;
    }
}

/// What a load of files with edits reports.
pub struct Round {
    /// Its warnings.
    pub warnings: DefaultConfigWarnings,
    /// Why it refuses the files, if it does.
    pub refusal: Option<ConfigParseError>,
}

// Written out, so that the proof of a caller sees one call and not the drop of each part.
impl Drop for Round {
    fn drop(self) {
        let Round {
            warnings: _warnings,
            refusal: _refusal,
        } = self;
    }
}

/// A copy of the outcome of reading a file.
fn copy_outcome(alloc: Global, outcome: &ReadOutcome) -> Result<ReadOutcome, AllocError>
    ensures { IfOk result (λ copy. outcome_view copy ≡ outcome_view outcome.now) }
{
    match outcome {
        ReadOutcome::Text(text) => Ok(ReadOutcome::Text(String::from_str(alloc, text.as_str())?)),
        ReadOutcome::NotFound => Ok(ReadOutcome::NotFound),
        ReadOutcome::NotADirectory => Ok(ReadOutcome::NotADirectory),
        ReadOutcome::Failed(message) => Ok(ReadOutcome::Failed(String::from_str(
            alloc,
            message.as_str(),
        )?)),
    }
}

/// The document that a text is, if it is one.
fn document_of(alloc: Global, text: &str) -> Result<Option<Tree>, AllocError>
    ensures { IfOk result (λ found. IfSome found
        (λ tree. tree_of text.now ≡ Some (tree_view tree))) }
{
    match tree_from_text(alloc, text) {
        Ok(tree) => Ok(Some(tree)),
        Err(TextFault::NotDocument(_)) => Ok(None),
        Err(TextFault::Memory) => Err(AllocError),
    }
}

/// The place of the organisation's file among the layers: above the defaults and the files of
/// tools.
fn organisation_place(tools: &[ToolConfigFile]) -> usize
    ensures { result ≡ length tools.now + 1 }
{
    tools.len() + 1
}

/// Returns why files are refused, if it is not that memory ran out.
fn not_memory(error: ConfigParseError) -> Result<ConfigParseError, AllocError>
    ensures same { IfOk result (λ same. same ≡ error) }
    ensures ended { IfOk result (λ same. ¬ IsMemory same) }
{
    if error.config_file().is_none() {
        return Err(AllocError);
    }
    Ok(error)
}

impl EditedFiles {
    /// What a load reads, with some features.
    fn inputs<'a>(&'a self, features: &'a BTreeSet<ConfigExperimental>) -> ConfigInputs<'a>
        ensures files { inputs_view result ≡ edited_view self.now }
        ensures features { result.features.now ≡ features.now }
    {
        ConfigInputs {
            shared: &self.shared,
            selection: ConfigFileSelection {
                config_file: self.config_file.as_ref(),
                organisation_file: self.organisation_file.as_ref(),
            },
            tools: &self.tools,
            features,
        }
    }
}

impl Reading {
    /// The files with edits.
    pub fn new(alloc: Global, edits: Edits) -> Reading
        ensures edits { result.edits ≡ edits }
        ensures unread { result.unread.keys ≡ [] }
        ensures switched_on { result.switched_on.keys ≡ [] }
    {
        Reading {
            edits,
            unread: BTreeSet::new(alloc),
            switched_on: BTreeSet::new(alloc),
        }
    }

    /// The text of the source at a place among the layers, if it is a document: with the edits, and
    /// empty if it is not read.
    fn text_at(
        &self,
        alloc: Global,
        layers: &[Layer],
        place: usize,
    ) -> Result<Option<String>, AllocError>
        ensures { IfOk result (λ text. option_map string_bytes text
            ≡ text_in_place (reading_view self.now) layers.now place) }
    {
        if self.unread.contains(&place) {
            return Ok(Some(String::new(alloc)));
        }
        let source = SourceAt {
            layers,
            position: Some(place),
        };
        match source.tree() {
            Some(tree) => Ok(Some(edited_document(alloc, tree, &self.edits, place)?)),
            None => Ok(None),
        }
    }

    /// Leaves out what a check of a source refuses. Returns whether that is new.
    pub fn leave_out(
        &mut self,
        alloc: Global,
        layers: &[Layer],
        place: usize,
        kind: &ConfigParseErrorKind,
    ) -> Result<bool, AllocError>
        ensures edits { OnOk result (edits_view self.new.edits
            ≡ with_edits (edits_view self.old.edits) (refused_edits place (length layers.now)
            (document_at layers.now (Some place)) kind.now)) }
        ensures unread { self.new.unread ≡ self.old.unread }
    {
        if let ConfigParseErrorKind::ExperimentalFeaturesNotEnabled { missing_features } = kind {
            return Ok(switch_on(&mut self.switched_on, missing_features)?);
        }
        let before = self.edits.count();
        leave_out_refused(alloc, &mut self.edits, layers, place, kind)?;
        Ok(self.edits.count() > before)
    }

    /// Leaves out the settings with the faults of the document that is read in place of a source.
    /// Returns whether they are new. `None` if this document has no faults.
    pub fn leave_out_values(
        &mut self,
        alloc: Global,
        layers: &[Layer],
        place: usize,
    ) -> Result<Option<bool>, AllocError>
        ensures edits { OnOk result (LeavesOutSettings layers.now place (reading_view self.old)
            (edits_view self.new.edits)) }
        ensures none { IfOk result (λ are_new. are_new ≡ None → self.new.edits ≡ self.old.edits) }
        ensures unread { self.new.unread ≡ self.old.unread }
    {
        let Some(text) = self.text_at(alloc, layers, place)? else {
            return Ok(Some(false));
        };
        let Some(tree) = document_of(alloc, text.as_str())? else {
            return Ok(Some(false));
        };
        let laid = lay_over(alloc, &tree, default_tree(alloc)?)?;
        let faults = file_faults(alloc, &laid)?;
        if faults.is_empty() {
            return Ok(None);
        }
        let before = self.edits.count();
        leave_out_settings(&mut self.edits, place, &faults)?;
        Ok(Some(self.edits.count() > before))
    }

    /// What is read in place of an outcome, of the source at a place among the layers.
    fn outcome_at(
        &self,
        alloc: Global,
        layers: &[Layer],
        place: usize,
        outcome: &ReadOutcome,
    ) -> Result<ReadOutcome, AllocError>
        ensures { IfOk result (λ read. outcome_view read ≡ text_or
            (text_in_place (reading_view self.now) layers.now place) (outcome_view outcome.now)) }
    {
        match self.text_at(alloc, layers, place)? {
            Some(text) => Ok(ReadOutcome::Text(text)),
            None => Ok(copy_outcome(alloc, outcome)?),
        }
    }

    /// A file, the source at a place among the layers, with the edits.
    fn file_at(
        &self,
        alloc: Global,
        layers: &[Layer],
        place: usize,
        file: &FileInput,
    ) -> Result<FileInput, AllocError>
        ensures { IfOk result (λ read. file_view read
            ≡ file_again (reading_view self.now) layers.now place (file_view file.now)) }
    {
        let path = ConfigPath::new(alloc, file.path.absolute_path())?;
        let outcome = self.outcome_at(alloc, layers, place, &file.outcome)?;
        Ok(FileInput { path, outcome })
    }

    /// The file of a tool, the source at a place among the layers, with the edits.
    fn tool_at(
        &self,
        alloc: Global,
        layers: &[Layer],
        place: usize,
        tool: &ToolConfigFile,
    ) -> Result<ToolConfigFile, AllocError>
        ensures { IfOk result (λ read. tool_file_view read
            ≡ tool_again (reading_view self.now) layers.now place (tool_file_view tool.now)) }
    {
        let name = tool.tool.clone()?;
        let config_file = self.file_at(alloc, layers, place, &tool.config_file)?;
        Ok(ToolConfigFile {
            tool: name,
            config_file,
        })
    }

    /// The files of tools with the edits, without those that are not read. The last one is the
    /// lowest source above the defaults.
    fn tools_of(
        &self,
        alloc: Global,
        layers: &[Layer],
        tools: &[ToolConfigFile],
    ) -> Result<Vec<ToolConfigFile>, AllocError>
        ensures { IfOk result (λ read. map tool_file_view read.items
            ≡ tools_again (reading_view self.now) layers.now (map tool_file_view tools.now)) }
    {
        let mut read = Vec::new(alloc);
        for (index, tool) in tools.iter().enumerate() {
            let place = tools.len().saturating_sub(index);
            if self.unread.contains(&place) {
                continue;
            }
            read.push(self.tool_at(alloc, layers, place, tool)?)?;
        }
        Ok(read)
    }

    /// An option's file, the source at a place among the layers, with the edits.
    fn named_file(
        &self,
        alloc: Global,
        layers: &[Layer],
        place: usize,
        file: &Option<FileInput>,
    ) -> Result<Option<FileInput>, AllocError>
        ensures { IfOk result (λ read. option_map file_view read
            ≡ option_map (file_again (reading_view self.now) layers.now place)
            (option_map file_view file.now)) }
    {
        match file {
            Some(file) => Ok(Some(self.file_at(alloc, layers, place, file)?)),
            None => Ok(None),
        }
    }

    /// The files of a session with the edits.
    fn files(&self, alloc: Global, session: &Session<'_>) -> Result<EditedFiles, AllocError>
        ensures { IfOk result (λ files. edited_view files
            ≡ files_again (reading_view self.now) session.now.layers.items
            (files_view session.now.gathered.now)) }
    {
        let gathered = session.gathered;
        let layers = session.layers.as_slice();
        let own = layers.len().saturating_sub(1);
        let organisation = organisation_place(&gathered.tools);
        let shared = self.file_at(alloc, layers, own, &gathered.paths.shared)?;
        let config_file = self.named_file(alloc, layers, own, &gathered.config_file)?;
        let organisation_file = self.named_file(
            alloc,
            layers,
            organisation,
            &gathered.organisation_file,
        )?;
        let tools = self.tools_of(alloc, layers, &gathered.tools)?;
        Ok(EditedFiles {
            shared,
            config_file,
            organisation_file,
            tools,
        })
    }

    /// Some features, and those that are switched on beside them.
    fn features_with(
        &self,
        features: &BTreeSet<ConfigExperimental>,
    ) -> Result<BTreeSet<ConfigExperimental>, AllocError>
        ensures { IfOk result
            (λ all. AreAmong (features_view features.now) (features_view all)) }
    {
        let mut all = features.clone()?;
        for feature in self.switched_on.iter() {
            all.insert(*feature)?;
        }
        Ok(all)
    }

    /// Loads the files of a session with the edits.
    pub fn load(&self, alloc: Global, session: &Session<'_>) -> Result<Round, AllocError>
        ensures { IfOk result (IsRound session.now (reading_view self.now)) }
    {
        let files = self.files(alloc, session)?;
        let features = self.features_with(&session.features)?;
        let inputs = files.inputs(&features);
        let mut warnings = DefaultConfigWarnings::new(alloc);
        match LoadedConfig::load(alloc, &inputs, &session.parse_context(), &mut warnings) {
            Ok(_) => Ok(Round {
                warnings,
                refusal: None,
            }),
            Err(error) => {
                let refusal = not_memory(error)?;
                Ok(Round {
                    warnings,
                    refusal: Some(refusal),
                })
            }
        }
    }
}
