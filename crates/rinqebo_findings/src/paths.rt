//! The paths of files that a text spells.
use crate::findings::SourceAt;
use nextest_places::Step;
use nextest_shape::file_shape;
use rinqebo_faults::{Fault, parted, spelled_in};
use std::alloc::{AllocError, Global};

/// The path that a text spells in a source, or else in the highest layer in which it spells one.
pub fn spelled_path<'s>(
    alloc: Global,
    source: SourceAt<'s, '_>,
    text: &'s str,
    fault: Fault<'_>,
) -> Result<Vec<Step<'s>>, AllocError> {
    let file = file_shape(alloc)?;
    if let Some(tree) = source.tree() {
        if let Some(path) = spelled_in(alloc, tree, text, fault, &file)? {
            return Ok(path);
        }
    }
    for layer in source.layers.iter().rev() {
        if let Some(tree) = layer.tree() {
            if let Some(path) = spelled_in(alloc, tree, text, fault, &file)? {
                return Ok(path);
            }
        }
    }
    parted(alloc, text)
}
