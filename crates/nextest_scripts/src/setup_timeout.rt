//! When a setup script counts as slow, and when it is ended.
ghost use Rattle.std.specs.Prelude.{◌≡◌, Some};
ghost use Rattle.nextest_tree.specs.Leaf.{Spells};
ghost use Rattle.nextest_scripts.specs.SetupScript.{IsSetupTimeout, a_setup_result, a_setup_timeout, setup_result_at, setup_timeout_fields, setup_timeout_of, setup_timeout_table};

use nextest_elements::{Nanoseconds, Positive, USUAL_GRACE_PERIOD};
use nextest_tree::{
    Element, ElementCause, ElementFault, Key, Record, Tree, Walk, optional, read_one_of,
    read_record, required,
};
use std::alloc::Global;
use std::collections::BTreeMap;

/// When a setup script counts as slow, and when it is ended. One that is ended fails.
#[derive(Clone, Copy, Debug, PartialEq, Eq)]
pub struct SetupScriptSlowTimeout {
    /// Nanoseconds after which the script counts as slow.
    pub period: u128,
    /// After how many periods, at least 1, the script is ended. Without it a slow script runs on.
    pub terminate_after: Option<u64>,
    /// Nanoseconds that the script has to end itself, before it is killed.
    pub grace_period: u128,
}

/// The result of a setup script that is terminated.
#[derive(Clone, Copy)]
enum SetupTimeoutResult {
    /// It fails.
    Fail,
}

/// The names of the results.
const SETUP_RESULT_NAMES: [(&str, SetupTimeoutResult); 1] = [("fail", SetupTimeoutResult::Fail)];

impl SetupScriptSlowTimeout {
    /// The timeout of a period alone.
    fn of(period: u128) -> SetupScriptSlowTimeout
        ensures { result ≡ setup_timeout_of period }
    {
        SetupScriptSlowTimeout {
            period,
            terminate_after: None,
            grace_period: USUAL_GRACE_PERIOD,
        }
    }
}

#[tactic(auto, unfolding(nextest_tree::specs::Reads::reading, nextest_tree::specs::Reads::walk_view, crate::specs::SetupScript::a_setup_result, crate::specs::SetupScript::setup_result_names, crate::specs::SetupScript::setup_result_expected))]
impl Element for SetupTimeoutResult {
    ghost schema = { a_setup_result };

    ghost is_value = { Spells setup_result_at };

    fn read(alloc: Global, tree: &Tree, walk: &mut Walk) -> Result<Self, ElementFault> {
        read_one_of(alloc, tree, walk, &SETUP_RESULT_NAMES, "`fail`")
    }
}

#[tactic(auto, using(nextest_tree::proofs::Reading::leaf_there, nextest_tree::proofs::Reading::leaf_read))]
impl Record for SetupScriptSlowTimeout {
    ghost fields = { setup_timeout_fields };

    ghost is_record = { λ es slow. setup_timeout_table es ≡ Some slow };

    fn keys() -> &'static [Key] {
        &[
            Key::Period,
            Key::TerminateAfter,
            Key::GracePeriod,
            Key::OnTimeout,
        ]
    }

    fn read_fields(
        alloc: Global,
        members: &BTreeMap<String, Tree>,
        walk: &mut Walk,
    ) -> Result<Self, ElementFault> {
        let Nanoseconds(period) = required(alloc, members, Key::Period, walk)?;
        let terminate_after = optional(alloc, members, Key::TerminateAfter, walk)?;
        let grace_period = optional(alloc, members, Key::GracePeriod, walk)?;
        let _fails: Option<SetupTimeoutResult> = optional(alloc, members, Key::OnTimeout, walk)?;
        Ok(SetupScriptSlowTimeout {
            period,
            terminate_after: terminate_after.map(|Positive(periods)| periods),
            grace_period: Nanoseconds::number(grace_period).unwrap_or(USUAL_GRACE_PERIOD),
        })
    }
}

#[tactic(auto, unfolding(nextest_tree::specs::Reads::reading, nextest_tree::specs::Reads::walk_view, nextest_elements::specs::Nanoseconds::a_duration))]
impl Element for SetupScriptSlowTimeout {
    ghost schema = { a_setup_timeout };

    ghost is_value = { IsSetupTimeout };

    fn read(alloc: Global, tree: &Tree, walk: &mut Walk) -> Result<Self, ElementFault> {
        match tree {
            Tree::Table(members) => read_record(alloc, members, walk),
            Tree::Text(_) => {
                let Nanoseconds(period) = Nanoseconds::read(alloc, tree, walk)?;
                Ok(SetupScriptSlowTimeout::of(period))
            }
            _ => Err(walk.fault(alloc, ElementCause::WrongKind)),
        }
    }
}
