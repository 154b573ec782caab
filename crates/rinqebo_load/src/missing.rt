//! Why a test that a request names is not found.
use crate::fault::InputFault;
use filter_inputs::{ListedBinary, ListedTest, ListedTests, PackageTarget};
use rinqebo_report::nearest_name;
use rinqebo_request::RequestedTest;
use std::alloc::{AllocError, Global};

/// That there is no test, or no binary, of a name.
#[derive(Debug, Drop)]
pub struct Missing {
    /// What is missing, as messages show it.
    pub message: String,
    /// A near name that there is, if one is near.
    pub near: Option<String>,
}

/// Why a test that a request names is not found.
#[derive(Debug, Drop)]
pub enum TestFault {
    /// The list has no test of the name, or the metadata have no binary of the id.
    NoTest(Missing),
    /// The list has several tests of the name. The text says which.
    SeveralTests(String),
    /// The metadata are not understood.
    Input(InputFault),
    /// Memory was refused.
    Memory,
}

impl From<AllocError> for TestFault {
    ghost use Rattle.std.specs.Prelude.{◌≡◌};
    ghost use Rattle.rinqebo_load.specs.declared.missing.TestFault.TheVariants.{Memory};

    ghost from_gives = { λ _ fault. fault ≡ Memory };

    fn from(_error: AllocError) -> TestFault {
        TestFault::Memory
    }
}

impl From<InputFault> for TestFault {
    ghost use Rattle.std.specs.Prelude.{◌≡◌};
    ghost use Rattle.rinqebo_load.specs.FindTests.{test_fault};

    ghost from_gives = { λ fault told. told ≡ test_fault fault };

    fn from(fault: InputFault) -> TestFault {
        match fault {
            InputFault::Memory => TestFault::Memory,
            fault => TestFault::Input(fault),
        }
    }
}

/// Whether a name ends in a word behind `::`.
fn has_end(name: &str, word: &str) -> bool {
    match name.strip_suffix(word) {
        Some(front) => front.ends_with("::"),
        None => false,
    }
}

impl Missing {
    /// That a name is missing beside some names.
    fn beside(
        alloc: Global,
        message: String,
        name: &str,
        known: &[&str],
    ) -> Result<Missing, AllocError> {
        let near = match nearest_name(alloc, name, known)? {
            Some(near) => Some(String::from_str(alloc, near)?),
            None => None,
        };
        Ok(Missing { message, near })
    }

    /// That no test of a list has a name, or the end of one.
    fn of_name(alloc: Global, name: &str, tests: &ListedTests) -> Result<Missing, AllocError> {
        let mut known = Vec::new(alloc);
        for binary in &tests.binaries {
            for case in &binary.tests {
                let test = case.name.as_str();
                known.push(test)?;
                if let Some((_, end)) = test.rsplit_once("::") {
                    known.push(end)?;
                }
            }
        }
        let message = format!(in alloc; "no test of LIST is `{name}`, nor ends in `::{name}`")?;
        Missing::beside(alloc, message, name, &known)
    }

    /// That no binary of a list has an id.
    fn of_binary(alloc: Global, id: &str, tests: &ListedTests) -> Result<Missing, AllocError> {
        let mut known = Vec::new(alloc);
        for binary in &tests.binaries {
            known.push(binary.id.as_str())?;
        }
        let message = format!(in alloc; "LIST has no binary `{id}`")?;
        Missing::beside(alloc, message, id, &known)
    }

    /// That a binary of a list has no test of a name.
    fn of_test(alloc: Global, name: &str, binary: &ListedBinary) -> Result<Missing, AllocError> {
        let id = binary.id.as_str();
        let message = format!(in alloc; "binary `{id}` of LIST has no test `{name}`")?;
        let mut known = Vec::new(alloc);
        for case in &binary.tests {
            let test = case.name.as_str();
            if has_end(test, name) {
                let near = Some(String::from_str(alloc, test)?);
                return Ok(Missing { message, near });
            }
            known.push(test)?;
        }
        Missing::beside(alloc, message, name, &known)
    }

    /// What is missing of a test that a list does not have: its binary, if it is named, or itself.
    pub fn in_list(
        alloc: Global,
        requested: &RequestedTest<'_>,
        tests: &ListedTests,
    ) -> Result<Missing, AllocError> {
        let Some(id) = requested.binary else {
            return Missing::of_name(alloc, requested.name, tests);
        };
        match tests
            .binaries
            .iter()
            .find(|binary| binary.id.as_str() == id)
        {
            Some(binary) => Missing::of_test(alloc, requested.name, binary),
            None => Missing::of_binary(alloc, id, tests),
        }
    }

    /// That no target of the metadata builds the binary of an id.
    pub fn in_metadata(
        alloc: Global,
        id: &str,
        targets: &[PackageTarget],
    ) -> Result<Missing, AllocError> {
        let mut ids = Vec::new(alloc);
        for target in targets {
            ids.push(target.binary_id(alloc)?)?;
        }
        let mut known = Vec::new(alloc);
        for id in &ids {
            known.push(id.as_str())?;
        }
        let message = format!(in alloc; "no package of the metadata has the binary `{id}`")?;
        Missing::beside(alloc, message, id, &known)
    }
}

/// Which tests a request names, as messages list them.
pub fn several_tests(
    alloc: Global,
    requested: &RequestedTest<'_>,
    named: &[ListedTest<'_>],
) -> Result<String, AllocError> {
    let count = named.len();
    let name = requested.name;
    let mut text = format!(in alloc; "{count} tests match `{name}`: ")?;
    for (index, test) in named.iter().enumerate() {
        if index > 0 {
            text.push_str(", ")?;
        }
        text.push_str(test.query.binary_query.binary_id)?;
        text.push_str(" ")?;
        text.push_str(test.query.test_name)?;
    }
    Ok(text)
}
