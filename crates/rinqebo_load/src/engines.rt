//! The languages of filters and platforms, as a request has them.
ghost use Rattle.std.specs.Prelude.{◌≡◌, IfErr, IfOk, option_map, string_bytes};
ghost use Rattle.rinqebo_forms.specs.Machines.{AreOpenFiltersFor, ArePlatformsFor, IsPlatformBy, IsTargetFor};
ghost use Rattle.rinqebo_request.specs.declared.named.FileOption.TheVariants.{HostCfg, TargetCfg};
ghost use Rattle.rinqebo_load.specs.InputFaults.{IsAboutNamed, IsAboutTriple, IsBuildFault, IsEngineFault, IsGraphFault, IsMachineFault, IsTargetFault, IsTargetKnown, OrMemory};
ghost use Rattle.rinqebo_load.specs.ListPath.{list_path, path_of};
ghost use Rattle.rinqebo_load.specs.Machines.{machine_of};

use crate::fault::{InputFault, Subject, TripleSource};
use crate::list_path::list_path;
use crate::triples::Triples;
use filter_engine::NextestFilters;
use nextest_config::BuildPlatforms;
use platform_language::Platform;
use rinqebo_forms::{open_filters_of, platform_of};
use rinqebo_request::{FileOption, Gathered, NamedFile, Question, Request};
use std::alloc::{AllocError, Global};

/// The language of filters, and the platforms of a build.
pub struct Engines {
    /// The language of filters, with the graph of packages if there are metadata. Else it leaves
    /// `deps` and `rdeps` open.
    pub filters: NextestFilters,
    /// The platform of the host, and the one that is built for, if there is one.
    pub platforms: BuildPlatforms<Platform>,
}

// Written out, so that the proof of a caller sees one call and not the drop of each part.
impl Drop for Engines {
    fn drop(self) {
        let Engines {
            filters: _filters,
            platforms: _platforms,
        } = self;
    }
}

/// How a request names a machine.
#[derive(Clone, Copy)]
struct MachineNames<'a> {
    /// What gives the triple.
    source: TripleSource,
    /// The path of the list of tests, which may give it.
    list: Option<&'a str>,
    /// The path of what the compiler prints for the machine, if a user names one.
    cfg: Option<&'a str>,
    /// The option of that path.
    option: FileOption,
}

/// What a fault of a triple is about: the list of tests, if that gives the triple, else what does.
fn triple_subject(
    alloc: Global,
    source: TripleSource,
    list: Option<&str>,
) -> Result<Subject, AllocError>
    ensures { IfOk result (IsAboutTriple source (path_of list.entry)) }
{
    match source {
        TripleSource::List => {
            let file = NamedFile::new(alloc, list, FileOption::List)?;
            Ok(Subject::File(file))
        }
        source => Ok(Subject::Triple(source)),
    }
}

impl MachineNames<'_> {
    /// What a fault of the machine's platform is about: what the compiler prints for it, if a user
    /// names that, else its triple.
    fn subject(self, alloc: Global) -> Result<Subject, AllocError>
        ensures { IfOk result (IsAboutNamed self.entry) }
    {
        match self.cfg {
            Some(cfg) => {
                let file = NamedFile::new(alloc, Some(cfg), self.option)?;
                Ok(Subject::File(file))
            }
            None => triple_subject(alloc, self.source, self.list),
        }
    }
}

/// How a request names its host.
fn host_names<'a>(request: &Request<'a>, triples: &Triples) -> MachineNames<'a>
    ensures source { result.source ≡ triples.now.host_source }
    ensures list { path_of result.list ≡ list_path request.now.question }
    ensures cfg { result.cfg ≡ request.now.engines.host_cfg }
    ensures option { result.option ≡ HostCfg }
{
    MachineNames {
        source: triples.host_source,
        list: list_path(request),
        cfg: request.engines.host_cfg,
        option: FileOption::HostCfg,
    }
}

/// How a request names its target.
fn target_names<'a>(request: &Request<'a>, triples: &Triples) -> MachineNames<'a>
    ensures source { result.source ≡ triples.now.target_source }
    ensures list { path_of result.list ≡ list_path request.now.question }
    ensures cfg { result.cfg ≡ request.now.engines.target_cfg }
    ensures option { result.option ≡ TargetCfg }
{
    MachineNames {
        source: triples.target_source,
        list: list_path(request),
        cfg: request.engines.target_cfg,
        option: FileOption::TargetCfg,
    }
}

/// The language of filters, with the graph of the metadata that were read at a path. Without them
/// `deps` and `rdeps` are left open.
fn filters_at(
    alloc: Global,
    path: Option<&str>,
    metadata: &Option<String>,
) -> Result<NextestFilters, InputFault>
    ensures ok { IfOk result (AreOpenFiltersFor (option_map string_bytes metadata.now)) }
    ensures err { IfErr result (OrMemory (IsGraphFault (path_of path.entry) metadata.now)) }
{
    match open_filters_of(alloc, metadata) {
        Ok(filters) => Ok(filters),
        Err(fault) => {
            let file = NamedFile::new(alloc, path, FileOption::Metadata)?;
            Err(InputFault::of_engine(Subject::File(file), fault))
        }
    }
}

/// The platform of a triple: what the compiler prints for it, or else that of the table.
fn named_platform(
    alloc: Global,
    triple: &str,
    cfg: &Option<String>,
    names: MachineNames<'_>,
) -> Result<Platform, InputFault>
    ensures ok { IfOk result (IsPlatformBy triple.now (option_map string_bytes cfg.now)) }
    ensures err { IfErr result
        (OrMemory (IsMachineFault (IsAboutNamed names.entry) (machine_of cfg.now triple.now))) }
{
    match platform_of(alloc, triple, cfg) {
        Ok(platform) => Ok(platform),
        Err(fault) => Err(InputFault::of_engine(names.subject(alloc)?, fault)),
    }
}

/// The platform that is built for, if a user names a target.
fn target_of(
    alloc: Global,
    triple: &Option<String>,
    cfg: &Option<String>,
    names: MachineNames<'_>,
) -> Result<Option<Platform>, InputFault>
    ensures ok { IfOk result
        (IsTargetFor (option_map (machine_of cfg.now) (option_map string_bytes triple.now))) }
    ensures known { IfOk result
        (λ _. IsTargetKnown cfg.now (option_map string_bytes triple.now)) }
    ensures err { IfErr result (OrMemory (IsTargetFault (IsAboutNamed names.entry) cfg.now
        (option_map string_bytes triple.now))) }
{
    match triple {
        Some(triple) => Ok(Some(named_platform(alloc, triple.as_str(), cfg, names)?)),
        None => match cfg {
            Some(_) => Err(InputFault::NoTarget),
            None => Ok(None),
        },
    }
}

/// The platforms of a build.
fn platforms_of(
    alloc: Global,
    request: &Request<'_>,
    triples: &Triples,
    gathered: &Gathered,
) -> Result<BuildPlatforms<Platform>, InputFault>
    ensures ok { IfOk result
        (ArePlatformsFor (machine_of gathered.now.host_cfg (string_bytes triples.now.host))
        (option_map (machine_of gathered.now.target_cfg)
        (option_map string_bytes triples.now.target))) }
    ensures err { IfErr result
        (OrMemory (IsBuildFault request.now triples.now gathered.now)) }
{
    let names = target_names(request, triples);
    let target = target_of(alloc, &triples.target, &gathered.target_cfg, names)?;
    let names = host_names(request, triples);
    Ok(BuildPlatforms {
        host: named_platform(alloc, triples.host.as_str(), &gathered.host_cfg, names)?,
        target,
    })
}

/// The language of filters for a request: only for a list so many names are matched that tables of
/// searches pay.
fn filters_for(question: &Question<'_>, filters: NextestFilters) -> NextestFilters
    ensures { result.packages ≡ filters.packages }
{
    match question {
        Question::List { .. } => filters,
        _ => filters.for_few_names(),
    }
}

impl Engines {
    /// The engines of a request for triples, over the files that were read.
    pub fn new(
        alloc: Global,
        request: &Request<'_>,
        triples: &Triples,
        gathered: &Gathered,
    ) -> Result<Engines, InputFault>
        ensures filters { IfOk result (λ engines. AreOpenFiltersFor
            (option_map string_bytes gathered.now.metadata) engines.filters) }
        ensures platforms { IfOk result (λ engines. ArePlatformsFor
            (machine_of gathered.now.host_cfg (string_bytes triples.now.host))
            (option_map (machine_of gathered.now.target_cfg)
            (option_map string_bytes triples.now.target)) engines.platforms) }
        ensures err { IfErr result
            (OrMemory (IsEngineFault request.now triples.now gathered.now)) }
    {
        let filters = filters_at(alloc, request.engines.metadata, &gathered.metadata)?;
        Ok(Engines {
            filters: filters_for(&request.question, filters),
            platforms: platforms_of(alloc, request, triples, gathered)?,
        })
    }
}
