//! The text of the default table, and the table that is built.
use nextest_documents::tree_from_text;
use nextest_tables::{DEFAULT_CONFIG, default_tree};
use std::alloc::Global;
use std::test::Fail;

/// The tree of a text, as it prints.
fn read_table(alloc: Global, text: &str) -> Result<String, Fail> {
    let tree = tree_from_text(alloc, text)?;
    Ok(format!(in alloc; "{tree:?}")?)
}

/// The default table, as it prints.
fn built_table(alloc: Global) -> Result<String, Fail> {
    let tree = default_tree(alloc)?;
    Ok(format!(in alloc; "{tree:?}")?)
}

#[test]
fn text_and_table_agree(rt: HostRuntime) -> Result<(), Fail> {
    let read = read_table(rt.alloc(), DEFAULT_CONFIG)?;
    let built = built_table(rt.alloc())?;
    assert!(rt; read == built, "{read} is not {built}");
    Ok(())
}
