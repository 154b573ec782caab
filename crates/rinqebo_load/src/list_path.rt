//! The path of the list of tests that a request names.
ghost use Rattle.std.specs.Prelude.{◌≡◌, option_map};
ghost use Rattle.rinqebo_load.specs.ListPath.{file_path, list_path, path_of};

use rinqebo_request::{ListFile, Question, Request};

/// The path of a list, as messages show it.
fn file_path<'a>(list: ListFile<'a>) -> &'a str
    ensures { result.now ≡ file_path list.entry }
{
    match list {
        ListFile::Named(path) => path,
        ListFile::Input => "-",
    }
}

/// The path of a list, if there is one.
fn path_in<'a>(list: Option<ListFile<'a>>) -> Option<&'a str>
    ensures { path_of result ≡ option_map file_path list.entry }
{
    match list {
        Some(list) => Some(file_path(list)),
        None => None,
    }
}

/// The path of the list of tests that a request names, if it names one.
pub fn list_path<'a>(request: &Request<'a>) -> Option<&'a str>
    ensures { path_of result ≡ list_path request.now.question }
{
    match &request.question {
        Question::List { list, .. } => Some(file_path(*list)),
        Question::Explain { test, .. }
        | Question::Why { test, .. }
        | Question::WhyRuns { test, .. } => path_in(test.list),
        Question::ShowConfig { .. } | Question::Check { .. } => None,
    }
}
