//! What is left out of files for a refusal of them.
ghost use Rattle.std.specs.Prelude.{◌≡◌, OnOk, Some, length, map};
ghost use Rattle.nextest_rules.specs.KnownView.{features_view};
ghost use Rattle.rinqebo_faults.specs.Edits.{edits_view, with_edits};
ghost use Rattle.rinqebo_faults.specs.ElementRepairs.{setting_edit};
ghost use Rattle.rinqebo_findings.specs.Later.{document_at};
ghost use Rattle.rinqebo_checks.specs.LeavingOut.{refused_edits};
ghost use Rattle.rinqebo_checks.specs.Rounds.{AreAmong};

use nextest_elements::ConfigExperimental;
use nextest_shape::FoundFault;
use nextest_sources::ConfigParseErrorKind;
use rinqebo_faults::{
    Edits, leave_out_foreign_groups, leave_out_groups, leave_out_old_scripts, leave_out_parents,
    leave_out_script_rules, leave_out_scripts, leave_out_sections, leave_out_setting,
};
use rinqebo_findings::SourceAt;
use rinqebo_request::Layer;
use std::alloc::{AllocError, Global};
use std::collections::BTreeSet;

/// Leaves out the settings of a source whose values are refused.
pub fn leave_out_settings(
    edits: &mut Edits,
    place: usize,
    faults: &[FoundFault<'_>],
) -> Result<(), AllocError>
    ensures { OnOk result (edits_view edits.new ≡ with_edits (edits_view edits.old)
        (map (λ fault. setting_edit place fault.path.items) faults.now)) }
{
    for fault in faults {
        leave_out_setting(edits, place, &fault.path)?;
    }
    Ok(())
}

/// Switches features on. Returns whether some are new.
pub fn switch_on(
    switched_on: &mut BTreeSet<ConfigExperimental>,
    features: &[ConfigExperimental],
) -> Result<bool, AllocError>
    ensures { OnOk result
        (AreAmong (features_view switched_on.old) (features_view switched_on.new)) }
{
    let mut is_new = false;
    for feature in features {
        is_new = switched_on.insert(*feature)? || is_new;
    }
    Ok(is_new)
}

/// Leaves out what a check of a source refuses.
pub fn leave_out_refused(
    alloc: Global,
    edits: &mut Edits,
    layers: &[Layer],
    place: usize,
    kind: &ConfigParseErrorKind,
) -> Result<(), AllocError>
    ensures { OnOk result (edits_view edits.new ≡ with_edits (edits_view edits.old)
        (refused_edits place (length layers.now) (document_at layers.now (Some place))
        kind.now)) }
{
    let source = SourceAt {
        layers,
        position: Some(place),
    };
    let tree = source.tree();
    match kind {
        ConfigParseErrorKind::InvalidTestGroupsDefined(groups)
        | ConfigParseErrorKind::InvalidTestGroupsDefinedByTool(groups)
        | ConfigParseErrorKind::InvalidTestGroupsDefinedByOrganisation(groups) => {
            leave_out_foreign_groups(alloc, edits, place, groups)
        }
        ConfigParseErrorKind::BothScriptAndScriptsDefined => {
            leave_out_old_scripts(edits, place, tree)
        }
        ConfigParseErrorKind::DuplicateConfigScriptNames(scripts)
        | ConfigParseErrorKind::InvalidConfigScriptsDefined(scripts)
        | ConfigParseErrorKind::InvalidConfigScriptsDefinedByTool(scripts)
        | ConfigParseErrorKind::InvalidConfigScriptsDefinedByOrganisation(scripts) => {
            leave_out_scripts(alloc, edits, place, scripts)
        }
        ConfigParseErrorKind::InheritanceErrors(errors) => {
            leave_out_parents(edits, layers.len(), errors)
        }
        ConfigParseErrorKind::CompileErrors(errors) => {
            leave_out_sections(alloc, edits, place, errors)
        }
        ConfigParseErrorKind::UnknownTestGroups { errors, .. } => {
            leave_out_groups(alloc, edits, place, tree, errors)
        }
        ConfigParseErrorKind::ProfileScriptErrors { errors, .. } => {
            leave_out_script_rules(edits, place, errors)
        }
        ConfigParseErrorKind::DuplicateToolConfigFile { .. }
        | ConfigParseErrorKind::ReadError(_)
        | ConfigParseErrorKind::BuildError(_)
        | ConfigParseErrorKind::DeserializeError(_)
        | ConfigParseErrorKind::ExperimentalFeaturesNotEnabled { .. }
        | ConfigParseErrorKind::Memory => Ok(()),
    }
}
