//! Verdicts of rules.
ghost use Rattle.std.specs.Prelude.{◌≡◌, false, map, IfOk};
ghost use Rattle.rinqebo_rules.specs.VerdictsBy.{decides_by, verdict_by, verdicts_by};

use crate::chain_rules::SettingRule;
use std::alloc::{AllocError, Global};

/// The verdict of a rule for a test and a setting.
#[derive(Clone, Copy, PartialEq, Eq)]
pub enum RuleVerdict {
    /// Its platforms do not hold.
    PlatformNo,
    /// They hold, and its filter does not match.
    FilterNo,
    /// It holds, and does not write the setting.
    SetsNothing,
    /// It would decide, but one before it does.
    DecidedBefore,
    /// It decides.
    Decides,
}

/// What is known of a rule for a test and a setting.
#[derive(Clone, Copy, PartialEq, Eq)]
pub struct RuleFacts {
    /// Whether its platforms hold.
    pub is_on: bool,
    /// Whether it holds: its platforms do, and its filter matches if it has one.
    pub holds: bool,
    /// Whether it writes the setting.
    pub writes: bool,
}

impl RuleFacts {
    /// Whether the rule holds and writes the setting.
    fn decides(self) -> bool
        ensures { result ≡ decides_by self }
    {
        self.holds && self.writes
    }

    /// The verdict of the rule, by whether one before it decides.
    fn verdict(self, is_decided: bool) -> RuleVerdict
        ensures { result ≡ verdict_by self.is_on self.holds self.writes is_decided }
    {
        if !self.is_on {
            RuleVerdict::PlatformNo
        } else if !self.holds {
            RuleVerdict::FilterNo
        } else if !self.writes {
            RuleVerdict::SetsNothing
        } else if is_decided {
            RuleVerdict::DecidedBefore
        } else {
            RuleVerdict::Decides
        }
    }
}

/// The verdict of each rule, in their order.
pub fn verdicts_of(alloc: Global, rules: &[SettingRule<'_>]) -> Result<Vec<RuleVerdict>, AllocError>
    ensures { IfOk result (λ verdicts. verdicts.items
        ≡ verdicts_by false (map (λ rule. rule.facts) rules.now)) }
{
    let mut verdicts = Vec::new(alloc);
    let mut is_decided = false;
    for rule in rules {
        verdicts.push(rule.facts.verdict(is_decided))?;
        is_decided = is_decided || rule.facts.decides();
    }
    Ok(verdicts)
}
