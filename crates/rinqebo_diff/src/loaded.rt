//! A side that is loaded, and why a side has no result.
ghost use Rattle.std.specs.Prelude.{◌≡◌, IfErr, IfOk};
ghost use Rattle.rinqebo_diff.specs.Failing.{FailsAt, SideFails};
ghost use Rattle.rinqebo_diff.specs.Loaded.{IsLoadedSide};
ghost use Rattle.rinqebo_diff.specs.declared.loaded.DiffFailure.TheVariants.{Memory};

use crate::request::DiffSide;
use nextest_config::DefaultConfigWarnings;
use rinqebo_checks::report_of;
use rinqebo_findings::warning_findings;
use rinqebo_load::{Config, Failure, Session};
use rinqebo_report::{Content, Report};
use rinqebo_request::Gathered;
use rinqebo_results::config_looked_up;
use std::alloc::{AllocError, Global};

/// A side that is loaded.
#[derive(Drop)]
pub struct Loaded<'g> {
    /// The session, with which all commands begin.
    pub session: Session<'g>,
    /// Its configuration.
    pub config: Config,
    /// Its sources, and the warnings about them.
    pub report: Report,
}

/// One of the two sides.
#[derive(Clone, Copy, Debug, PartialEq, Eq, Drop)]
pub enum SideName {
    /// The left side, from which something changes.
    From,
    /// The right side, to which something changes.
    To,
}

/// Why a diff has no result.
#[derive(Drop)]
pub enum DiffFailure {
    /// A side has none.
    Side(SideName, Failure),
    /// Memory ran out.
    Memory,
}

impl From<AllocError> for DiffFailure {
    ghost from_gives = { λ _ failure. failure ≡ Memory };

    fn from(_error: AllocError) -> DiffFailure {
        DiffFailure::Memory
    }
}

/// Loads a side. Each filter that its profile evaluates was looked up.
pub fn load_side<'g>(
    alloc: Global,
    side: &DiffSide<'_>,
    gathered: &'g Gathered,
) -> Result<Loaded<'g>, Failure>
    ensures ok { IfOk result (IsLoadedSide side.now gathered.now) }
    ensures err { IfErr result (SideFails side.now gathered.now) }
{
    let session = Session::new(alloc, &side.request, gathered)?;
    let mut warnings = DefaultConfigWarnings::new(alloc);
    let config = config_looked_up(alloc, &session, side.profile, &mut warnings)?;
    let findings = warning_findings(alloc, &session.layers, &warnings)?;
    let report = report_of(alloc, &session, findings, Vec::new(alloc), Content::Check)?;
    Ok(Loaded {
        session,
        config,
        report,
    })
}

/// Loads one of the sides.
pub fn load_named<'g>(
    alloc: Global,
    name: SideName,
    side: &DiffSide<'_>,
    gathered: &'g Gathered,
) -> Result<Loaded<'g>, DiffFailure>
    ensures ok { IfOk result (IsLoadedSide side.now gathered.now) }
    ensures err { IfErr result (FailsAt name side.now gathered.now) }
{
    match load_side(alloc, side, gathered) {
        Ok(loaded) => Ok(loaded),
        Err(failure) => Err(DiffFailure::Side(name, failure)),
    }
}
