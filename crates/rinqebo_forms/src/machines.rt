//! The filters and the platforms of a request.
ghost use Rattle.std.specs.Prelude.{IfOk, IfErr, option_map, string_bytes};
ghost use Rattle.rinqebo_forms.specs.Machines.{AreFiltersFor, AreFiltersOr, AreOpenFiltersFor, IsMetadataFault, IsPlatformBy, IsPlatformFor, IsFaultBy, ArePlatformsFor, IsTripleRefused, IsMachineRefused, IsBuildRefused};
ghost use Rattle.rinqebo_forms.specs.Requests.{machine_view};

use crate::request::{LoadRequest, Machine};
use filter_engine::{MetadataFault, NextestFilters, PackageGraph};
use nextest_engines::BuildPlatforms;
use platform_language::{Platform, PlatformFault};
use std::alloc::{AllocError, Global};
use thiserror::Error;

/// Why no filters or platforms can be made for a request.
#[derive(Debug, Drop, Error)]
pub enum EngineFault {
    /// No graph of packages can be read from the metadata.
    #[error("{0}")]
    Metadata(MetadataFault),
    /// No platform can be found for a triple.
    #[error("platform `{0}`: {1}")]
    Platform(String, PlatformFault),
    /// An allocation failed.
    #[error("out of memory")]
    Memory,
}

impl From<AllocError> for EngineFault {
    ghost use Rattle.std.specs.Prelude.{◌≡◌};
    ghost use Rattle.rinqebo_forms.specs.declared.machines.EngineFault.TheVariants.{Memory};

    ghost from_gives = { λ _ e. e ≡ Memory };

    fn from(_error: AllocError) -> EngineFault {
        EngineFault::Memory
    }
}

/// Returns the filters with the graph of packages if the metadata are given, or else others.
fn filters_or(
    alloc: Global,
    metadata: &Option<String>,
    others: NextestFilters,
) -> Result<NextestFilters, EngineFault>
    ensures ok { IfOk result
        (AreFiltersOr others.packages (option_map string_bytes metadata.now)) }
    ensures err { IfErr result (IsMetadataFault (option_map string_bytes metadata.now)) }
{
    let Some(metadata) = metadata else {
        return Ok(others);
    };
    match PackageGraph::from_metadata(alloc, metadata.as_str()) {
        Ok(graph) => Ok(NextestFilters::with_graph(graph)),
        Err(MetadataFault::Memory) => Err(EngineFault::Memory),
        Err(fault) => Err(EngineFault::Metadata(fault)),
    }
}

/// Returns the filters of a request, with the graph of packages if the metadata are given. Without
/// them, `deps` and `rdeps` are refused.
pub fn filters_of(alloc: Global, metadata: &Option<String>) -> Result<NextestFilters, EngineFault>
    ensures ok { IfOk result (AreFiltersFor (option_map string_bytes metadata.now)) }
    ensures err { IfErr result (IsMetadataFault (option_map string_bytes metadata.now)) }
{
    filters_or(alloc, metadata, NextestFilters::new())
}

/// Returns the filters of a request, with the graph of packages if the metadata are given. Without
/// them, `deps` and `rdeps` are read and left open.
pub fn open_filters_of(
    alloc: Global,
    metadata: &Option<String>,
) -> Result<NextestFilters, EngineFault>
    ensures ok { IfOk result (AreOpenFiltersFor (option_map string_bytes metadata.now)) }
    ensures err { IfErr result (IsMetadataFault (option_map string_bytes metadata.now)) }
{
    filters_or(alloc, metadata, NextestFilters::open())
}

/// Reads the platform of a triple from what the compiler prints for it, if that is given, or else
/// from the table.
fn read_platform(
    alloc: Global,
    triple: &str,
    cfg: &Option<String>,
) -> Result<Platform, PlatformFault>
    ensures ok { IfOk result (IsPlatformBy triple.now (option_map string_bytes cfg.now)) }
    ensures err { IfErr result (IsFaultBy triple.now (option_map string_bytes cfg.now)) }
{
    match cfg {
        Some(cfg) => Platform::from_rustc_cfg(alloc, triple, cfg.as_str()),
        None => Platform::builtin(alloc, triple),
    }
}

/// Returns the platform of a triple, read from what the compiler prints for it, if that is given,
/// or else from the table.
///
/// # Errors
///
/// Returns [`EngineFault::Platform`] with the triple if the text isn't one that a compiler prints,
/// or if none is given and the table doesn't have the triple. Returns [`EngineFault::Memory`] if an
/// allocation fails.
pub fn platform_of(
    alloc: Global,
    triple: &str,
    cfg: &Option<String>,
) -> Result<Platform, EngineFault>
    ensures ok { IfOk result (IsPlatformBy triple.now (option_map string_bytes cfg.now)) }
    ensures err { IfErr result (IsTripleRefused triple.now (option_map string_bytes cfg.now)) }
{
    match read_platform(alloc, triple, cfg) {
        Ok(platform) => Ok(platform),
        Err(PlatformFault::Memory) => Err(EngineFault::Memory),
        Err(fault) => Err(EngineFault::Platform(String::from_str(alloc, triple)?, fault)),
    }
}

/// Returns the platform of a machine.
fn machine_platform(alloc: Global, machine: &Machine) -> Result<Platform, EngineFault>
    ensures ok { IfOk result (IsPlatformFor (machine_view machine.now)) }
    ensures err { IfErr result (IsMachineRefused (machine_view machine.now)) }
{
    platform_of(alloc, machine.triple.as_str(), &machine.cfg)
}

/// Returns the platforms of a build.
pub fn platforms_of(
    alloc: Global,
    request: &LoadRequest,
) -> Result<BuildPlatforms<Platform>, EngineFault>
    ensures ok { IfOk result (ArePlatformsFor (machine_view request.now.host)
        (option_map machine_view request.now.target)) }
    ensures err { IfErr result (IsBuildRefused (machine_view request.now.host)
        (option_map machine_view request.now.target)) }
{
    let target = match &request.target {
        Some(machine) => Some(machine_platform(alloc, machine)?),
        None => None,
    };
    Ok(BuildPlatforms {
        host: machine_platform(alloc, &request.host)?,
        target,
    })
}
