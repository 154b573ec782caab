//! The tree of a file that was read.
ghost use Rattle.std.specs.Prelude.{◌≡◌, IfOk, option_map};
ghost use Rattle.nextest_sources.specs.Sources.{outcome_view};
ghost use Rattle.nextest_tree.specs.View.{tree_view};
ghost use Rattle.rinqebo_forms.specs.Features.{tree_read};

use nextest_documents::{TextFault, tree_from_text};
use nextest_sources::ReadOutcome;
use nextest_tree::Tree;
use std::alloc::{AllocError, Global};

/// Returns the tree of what was read, if it is a document.
pub fn tree_of(alloc: Global, outcome: &ReadOutcome) -> Result<Option<Tree>, AllocError>
    ensures { IfOk result (λ tree. option_map tree_view tree
        ≡ tree_read (outcome_view outcome.now)) }
{
    match outcome {
        ReadOutcome::Text(text) => match tree_from_text(alloc, text.as_str()) {
            Ok(tree) => Ok(Some(tree)),
            Err(TextFault::NotDocument(_)) => Ok(None),
            Err(TextFault::Memory) => Err(AllocError),
        },
        ReadOutcome::NotFound | ReadOutcome::NotADirectory | ReadOutcome::Failed(_) => Ok(None),
    }
}
