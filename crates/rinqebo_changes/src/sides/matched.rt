//! The tests that two lists have in common, and those that one has alone. Nothing is kept of the
//! tests that both have.
ghost use Rattle.std.specs.Prelude.{◌≡◌, ◌∷◌, [], ◌++◌, false, IfOk, IfSome, MatchOption, OnOk, filter, map, not};
ghost use Rattle.filter_inputs.specs.Lists.Lists.{list_tests, test_of, tests_in};
ghost use Rattle.filter_inputs.specs.Lists.ListView.{binary_view, case_view, list_test_view, list_view, listed_view};
ghost use Rattle.rinqebo_changes.specs.Sides.Matched.{same_test, is_in, pair_view, tests_of, HasPair, IsFound, AreAlone};

use filter_inputs::{ListedBinary, ListedTest, ListedTests, TestCase};
use std::alloc::{AllocError, Global};

/// A test that both lists have.
#[derive(Clone, Copy)]
pub struct Pair<'q> {
    /// The test of the left list.
    pub from: ListedTest<'q>,
    /// The test of the right list.
    pub to: ListedTest<'q>,
}

/// A place in a list: which binary, and which test of it.
#[derive(Clone, Copy)]
pub struct Place {
    binary: usize,
    case: usize,
}

/// A test of a list, and its place.
#[derive(Clone, Copy)]
struct Found<'q> {
    test: ListedTest<'q>,
    place: Place,
}

/// The tests of two lists that one of them has alone.
#[derive(Drop)]
pub struct AloneTests<'q> {
    /// The tests of the left list alone, in its order.
    pub removed: Vec<ListedTest<'q>>,
    /// The tests of the right list alone, in its order.
    pub added: Vec<ListedTest<'q>>,
}

impl Place {
    /// The place at which a list begins.
    pub fn first() -> Place {
        Place { binary: 0, case: 0 }
    }

    /// The place behind another one, in the same binary.
    fn next(self) -> Place {
        Place {
            binary: self.binary,
            case: self.case.saturating_add(1),
        }
    }

    /// The first place of the next binary.
    fn next_binary(self) -> Place {
        Place {
            binary: self.binary.saturating_add(1),
            case: 0,
        }
    }
}

/// A test of a binary, as a list has it.
pub fn test_of<'q>(binary: &'q ListedBinary, case: &'q TestCase) -> ListedTest<'q>
    ensures { list_test_view result ≡ test_of (binary_view binary.now) (case_view case.now) }
{
    ListedTest {
        query: binary.query(case.name.as_str()),
        ignored: case.ignored,
    }
}

/// Whether two tests have the same binary and the same name.
fn is_same_test(a: &ListedTest<'_>, b: &ListedTest<'_>) -> bool
    ensures { result ≡ same_test (list_test_view a.now) (list_test_view b.now) }
{
    a.query.binary_query.binary_id == b.query.binary_query.binary_id
        && a.query.test_name == b.query.test_name
}

/// The test at a place of a list, if it is the one that is looked for.
fn test_at<'q>(
    binaries: &'q [ListedBinary],
    test: &ListedTest<'_>,
    place: Place,
) -> Option<ListedTest<'q>>
    ensures { IfSome result (λ one. IsFound (tests_of binaries.now) (list_test_view test.now)
        (list_test_view one)) }
{
    let binary = binaries.get(place.binary)?;
    let case = binary.tests.get(place.case)?;
    let one = test_of(binary, case);
    if is_same_test(&one, test) {
        Some(one)
    } else {
        None
    }
}

/// The first test of a binary that is the one that is looked for, and its place. The tests of the
/// binary begin at a place.
fn find_in<'q>(binary: &'q ListedBinary, start: Place, test: &ListedTest<'_>) -> Option<Found<'q>>
    ensures { MatchOption result
        (is_in (tests_in (listed_view binary.now)) (list_test_view test.now) ≡ false)
        (λ found. IsFound (tests_in (listed_view binary.now)) (list_test_view test.now)
        (list_test_view found.test)) }
{
    if binary.id.as_str() != test.query.binary_query.binary_id {
        return None;
    }
    let mut place = start;
    for case in &binary.tests {
        let one = test_of(binary, case);
        if is_same_test(&one, test) {
            return Some(Found { test: one, place });
        }
        place = place.next();
    }
    None
}

/// The first test of a list that is the one that is looked for, and its place.
fn find<'q>(binaries: &'q [ListedBinary], test: &ListedTest<'_>) -> Option<Found<'q>>
    ensures { MatchOption result
        (is_in (tests_of binaries.now) (list_test_view test.now) ≡ false)
        (λ found. IsFound (tests_of binaries.now) (list_test_view test.now)
        (list_test_view found.test)) }
{
    let mut place = Place::first();
    for binary in binaries {
        if let Some(found) = find_in(binary, place, test) {
            return Some(found);
        }
        place = place.next_binary();
    }
    None
}

/// The test at a place of a list, or else at the first place of the next binary, if it is the one
/// that is looked for, and its place.
fn test_near<'q>(
    binaries: &'q [ListedBinary],
    test: &ListedTest<'_>,
    place: Place,
) -> Option<Found<'q>>
    ensures { IfSome result (λ found. IsFound (tests_of binaries.now) (list_test_view test.now)
        (list_test_view found.test)) }
{
    if let Some(test) = test_at(binaries, test, place) {
        return Some(Found { test, place });
    }
    let place = place.next_binary();
    let test = test_at(binaries, test, place)?;
    Some(Found { test, place })
}

/// The test of a list that is the one that is looked for, and its place. It is looked for near a
/// place first.
fn found_from<'q>(
    binaries: &'q [ListedBinary],
    test: &ListedTest<'_>,
    place: Place,
) -> Option<Found<'q>>
    ensures { MatchOption result
        (is_in (tests_of binaries.now) (list_test_view test.now) ≡ false)
        (λ found. IsFound (tests_of binaries.now) (list_test_view test.now)
        (list_test_view found.test)) }
{
    match test_near(binaries, test, place) {
        Some(found) => Some(found),
        None => find(binaries, test),
    }
}

/// Adds a test to others, if a list does not have it. It is looked for near a place first, which is
/// then the place to begin with for the next test.
fn add_alone<'q>(
    found: &mut Vec<ListedTest<'q>>,
    others: &[ListedBinary],
    test: ListedTest<'q>,
    guess: &mut Place,
) -> Result<(), AllocError>
    ensures { OnOk result (map list_test_view found.new.items ≡ map list_test_view found.old.items
        ++ filter (λ t. not (is_in (tests_of others.now) t)) (list_test_view test.entry ∷ [])) }
{
    match found_from(others, &test, *guess) {
        Some(other) => *guess = other.place.next(),
        None => found.push(test)?,
    }
    Ok(())
}

/// Adds the tests of a binary to others that a list does not have.
fn add_alone_of<'q>(
    found: &mut Vec<ListedTest<'q>>,
    others: &[ListedBinary],
    binary: &'q ListedBinary,
    guess: &mut Place,
) -> Result<(), AllocError>
    ensures { OnOk result (map list_test_view found.new.items ≡ map list_test_view found.old.items
        ++ filter (λ t. not (is_in (tests_of others.now) t)) (tests_in (listed_view binary.now))) }
{
    for case in &binary.tests {
        add_alone(found, others, test_of(binary, case), guess)?;
    }
    Ok(())
}

/// The tests of a list that another list does not have.
fn alone<'q>(
    alloc: Global,
    binaries: &'q [ListedBinary],
    others: &[ListedBinary],
) -> Result<Vec<ListedTest<'q>>, AllocError>
    ensures { IfOk result (λ found. map list_test_view found.items
        ≡ filter (λ t. not (is_in (tests_of others.now) t)) (tests_of binaries.now)) }
{
    let mut found = Vec::new(alloc);
    let mut guess = Place::first();
    for binary in binaries {
        add_alone_of(&mut found, others, binary, &mut guess)?;
    }
    Ok(found)
}

/// The pair of a test of the right list, if the left list has the test. It is looked for near a
/// place first, which is then the place to begin with for the next test.
pub fn pair_of<'q>(
    from: &'q [ListedBinary],
    test: ListedTest<'q>,
    guess: &mut Place,
) -> Option<Pair<'q>>
    ensures { MatchOption result
        (is_in (tests_of from.now) (list_test_view test.entry) ≡ false)
        (λ pair. HasPair (tests_of from.now) (list_test_view test.entry) (pair_view pair)) }
{
    let found = found_from(from, &test, *guess)?;
    *guess = found.place.next();
    Some(Pair {
        from: found.test,
        to: test,
    })
}

/// The tests of two lists that one of them has alone.
pub fn tests_alone<'q>(
    alloc: Global,
    from: &'q ListedTests,
    to: &'q ListedTests,
) -> Result<AloneTests<'q>, AllocError>
    ensures { IfOk result (AreAlone (list_tests (list_view from.now))
        (list_tests (list_view to.now))) }
{
    Ok(AloneTests {
        removed: alone(alloc, &from.binaries, &to.binaries)?,
        added: alone(alloc, &to.binaries, &from.binaries)?,
    })
}
