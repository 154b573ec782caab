//! What is wrong with single values and with names.
ghost use Rattle.std.specs.Prelude.{◌≡◌, ℕ, IfOk, List, Option, map};
ghost use Rattle.nextest_tree.specs.Leaf.{cause_of};
ghost use Rattle.nextest_tree.specs.Schema.{FaultCause, at, faults, is_one_of};
ghost use Rattle.nextest_tree.specs.View.{tree_view};
ghost use Rattle.nextest_elements.specs.RetryPolicy.{count_at};
ghost use Rattle.nextest_scripts.specs.CommandLine.{line_cause};
ghost use Rattle.nextest_scripts.specs.EnvMap.{env_key_cause};
ghost use Rattle.nextest_shape.specs.Faults.Found.{IsCause, IsSeen};
ghost use Rattle.nextest_shape.specs.Faults.Values.{words_cause};

use nextest_scripts::{ScriptCommand, is_env_var_key};
use nextest_tree::{Element, ElementCause, ElementFault, Name, Tree, Walk};
use std::alloc::{AllocError, Global};

/// The cause of a refusal, unless it is one of memory.
fn cause_in(fault: ElementFault) -> Result<ElementCause, AllocError>
    ensures same { IfOk result (λ cause. cause ≡ fault.cause) }
    ensures seen { IfOk result IsSeen }
{
    match fault.cause {
        ElementCause::Memory => Err(AllocError),
        cause => Ok(cause),
    }
}

/// What is wrong with a value of an element that has at most one fault, at the value itself.
pub(crate) fn element_cause<T: Element>(
    alloc: Global,
    tree: &Tree,
) -> Result<Option<ElementCause>, AllocError>
    ensures { (test : Option FaultCause)
        → ((p : List ℕ) → faults T.schema p (tree_view tree.now) ≡ at p test)
        → IfOk result (λ cause. IsCause cause test) }
{
    let mut walk = Walk::new(alloc);
    match T::read(alloc, tree, &mut walk) {
        Ok(_) => Ok(None),
        Err(fault) => Ok(Some(cause_in(fault)?)),
    }
}

/// What is wrong with a name that keys a map.
pub(crate) fn name_cause<N: Name>(
    alloc: Global,
    key: &str,
) -> Result<Option<ElementCause>, AllocError>
    ensures { IfOk result (λ cause. IsCause cause (N.test key.now)) }
{
    let walk = Walk::new(alloc);
    match N::read_name(alloc, key, &walk) {
        Ok(_) => Ok(None),
        Err(fault) => Ok(Some(cause_in(fault)?)),
    }
}

/// That a text is none of what is expected.
fn bad_value(alloc: Global, given: &str, expected: &'static str) -> Result<ElementCause, AllocError>
    ensures { IfOk result (λ cause. IsCause (Option.Some cause)
        (Option.Some (FaultCause.bad_value given.now expected.now))) }
{
    Ok(ElementCause::BadValue {
        given: String::from_str(alloc, given)?,
        expected,
    })
}

/// Whether a text is one of some words.
fn is_one_of(words: &[&str], text: &str) -> bool
    ensures { result ≡ is_one_of (map (λ word. word.now) words.now) text.now }
{
    for word in words {
        if *word == text {
            return true;
        }
    }
    false
}

/// What is wrong with a value that is to be one of some words.
pub(crate) fn words_cause(
    alloc: Global,
    tree: &Tree,
    words: &[&str],
    expected: &'static str,
) -> Result<Option<ElementCause>, AllocError>
    ensures { IfOk result (λ cause. IsCause cause
        (words_cause (map (λ word. word.now) words.now) expected.now (tree_view tree.now))) }
{
    let Tree::Text(text) = tree else {
        return Ok(Some(ElementCause::WrongKind));
    };
    if is_one_of(words, text.as_str()) {
        Ok(None)
    } else {
        Ok(Some(bad_value(alloc, text.as_str(), expected)?))
    }
}

/// What is wrong with a number of tries.
pub(crate) fn count_cause(tree: &Tree) -> Option<ElementCause>
    ensures { IsCause result (cause_of (count_at (tree_view tree.now))) }
{
    match tree {
        Tree::Int(number) => match u32::try_from(*number) {
            Ok(_) => None,
            Err(_) => Some(ElementCause::OutOfRange),
        },
        _ => Some(ElementCause::WrongKind),
    }
}

/// What is wrong with the line of a command.
pub(crate) fn line_cause(alloc: Global, tree: &Tree) -> Result<Option<ElementCause>, AllocError>
    ensures { IfOk result (λ cause. IsCause cause (line_cause (tree_view tree.now))) }
{
    match tree {
        Tree::Text(_) => Ok(element_cause::<ScriptCommand>(alloc, tree)?),
        _ => Ok(Some(ElementCause::WrongKind)),
    }
}

/// What is wrong with the key of an environment variable.
pub(crate) fn variable_cause(alloc: Global, key: &str) -> Result<Option<ElementCause>, AllocError>
    ensures { IfOk result (λ cause. IsCause cause (env_key_cause key.now)) }
{
    if is_env_var_key(key) {
        Ok(None)
    } else {
        let expected = "the key of an environment variable";
        Ok(Some(bad_value(alloc, key, expected)?))
    }
}
