//! A diff as a text.
ghost use Rattle.std.specs.Prelude.{IfOk, string_bytes};
ghost use Rattle.rinqebo_diff.specs.Written.{IsRendered};

use crate::request::{DiffFormat, DiffRequest};
use rinqebo_changes::{Diff, diff_github, diff_json, diff_markdown, diff_text};
use std::alloc::{AllocError, Global};

/// A diff in the format of a request. Only the page has colours and columns.
pub fn render_diff(
    alloc: Global,
    diff: &Diff,
    request: &DiffRequest<'_>,
) -> Result<String, AllocError>
    ensures { IfOk result (λ text. IsRendered request.now diff.now (string_bytes text)) }
{
    match request.format {
        DiffFormat::Text => diff_text(alloc, diff, request.lists_all, request.paper),
        DiffFormat::Json => diff_json(alloc, diff),
        DiffFormat::Github(workspace) => diff_github(alloc, workspace, diff),
        DiffFormat::Markdown => diff_markdown(alloc, diff, request.lists_all),
    }
}
