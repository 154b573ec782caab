//! The request of a user, as reports have it.
ghost use Rattle.std.specs.Prelude.{◌≡◌, IfOk, map, option_map, string_bytes};
ghost use Rattle.rinqebo_load.specs.ListPath.{path_of};
ghost use Rattle.rinqebo_load.specs.ShownRequests.{named_test, shown_of, test_in};
ghost use Rattle.rinqebo_report.specs.Requests.{request_shown, test_shown};

use crate::list_path::list_path;
use rinqebo_report::{NamedTest, ReportedRequest};
use rinqebo_request::{Question, Request, RequestedTest};
use std::alloc::{AllocError, Global};

/// A copy of a text, if there is one.
fn text_of(alloc: Global, text: Option<&str>) -> Result<Option<String>, AllocError>
    ensures { IfOk result (λ copy. option_map string_bytes copy ≡ path_of text.entry) }
{
    match text {
        Some(text) => Ok(Some(String::from_str(alloc, text)?)),
        None => Ok(None),
    }
}

/// Copies of KEYs.
fn keys_of(alloc: Global, keys: &[&str]) -> Result<Vec<String>, AllocError>
    ensures { IfOk result (λ copies. map string_bytes copies.items
        ≡ map (λ key. key.now) keys.now) }
{
    let mut copies = Vec::new(alloc);
    for key in keys {
        copies.push(String::from_str(alloc, *key)?)?;
    }
    Ok(copies)
}

/// A test, as a user names it.
fn named_test(alloc: Global, test: &RequestedTest<'_>) -> Result<NamedTest, AllocError>
    ensures { IfOk result (λ named. test_shown named ≡ named_test test.now) }
{
    Ok(NamedTest {
        binary: text_of(alloc, test.binary)?,
        name: String::from_str(alloc, test.name)?,
    })
}

/// The test that a user names, if the request is about one.
fn test_in(alloc: Global, question: &Question<'_>) -> Result<Option<NamedTest>, AllocError>
    ensures { IfOk result (λ test. option_map test_shown test ≡ test_in question.now) }
{
    match question {
        Question::Explain { test, .. }
        | Question::Why { test, .. }
        | Question::WhyRuns { test, .. } => Ok(Some(named_test(alloc, test)?)),
        Question::List { .. } | Question::ShowConfig { .. } | Question::Check { .. } => Ok(None),
    }
}

/// The request of a user, as reports have it.
pub fn reported_request(alloc: Global, request: &Request<'_>) -> Result<ReportedRequest, AllocError>
    ensures { IfOk result (λ reported. request_shown reported ≡ shown_of request.now) }
{
    let words = &request.words;
    Ok(ReportedRequest {
        command: words.command,
        test: test_in(alloc, &request.question)?,
        keys: keys_of(alloc, &words.keys)?,
        why: text_of(alloc, words.why)?,
        by: text_of(alloc, words.by)?,
        list: text_of(alloc, list_path(request))?,
    })
}
