//! What readers of scripts and their commands read, and what a run makes of them.
use super::refusal;
use crate::row::RowError;
use nextest_elements::{Element, Tree, Walk};
use nextest_scripts::{ScriptCommand, ScriptId, SetupScriptConfig};
use std::alloc::Global;
use uuid::Uuid;

/// The program of a command, in the root `/w` with the target directory `/w/target`, or the fault.
pub fn program_answer(alloc: Global, tree: &Tree, walk: &mut Walk) -> Result<String, RowError> {
    match ScriptCommand::read(alloc, tree, walk) {
        Ok(command) => match command.program(alloc, "/w", "/w/target") {
            Ok(program) => Ok(program),
            Err(_) => Ok(command.program(alloc, "/w", "/w/target")?),
        },
        Err(fault) => refusal(alloc, &fault),
    }
}

/// Whether some output of a setup script is not captured, or the fault.
pub fn no_capture_answer(alloc: Global, tree: &Tree, walk: &mut Walk) -> Result<String, RowError> {
    match SetupScriptConfig::read(alloc, tree, walk) {
        Ok(script) => Ok(format!(in alloc; "{}", script.no_capture())?),
        Err(fault) => refusal(alloc, &fault),
    }
}

/// The id of the script of a table within the run whose id is the number 1, with the table's stress
/// index, if it has one, or the cause of the refusal.
pub fn unique_id_answer(alloc: Global, tree: &Tree) -> Result<String, RowError> {
    let Some(Tree::Text(id)) = tree.get("id") else {
        return Err(RowError::NoRow);
    };
    let stress_index = match tree.get("stress-index") {
        Some(Tree::Int(index)) => u32::try_from(*index).ok(),
        _ => None,
    };
    match ScriptId::new(alloc, id.as_str()) {
        Ok(id) => match id.unique_id(alloc, Uuid::from_u128(1), stress_index) {
            Ok(text) => Ok(text),
            Err(_) => Ok(id.unique_id(alloc, Uuid::from_u128(1), stress_index)?),
        },
        Err(cause) => refusal(alloc, &cause),
    }
}
