//! Metadata of a workspace that is refused.
use filter_inputs::{MetadataFault, MetadataPlace, PackageGraph, Wanted};
use std::test::Fail;

/// Why the metadata is refused, if it is.
fn fault_of(rt: &HostRuntime, text: &str) -> Option<MetadataFault> {
    PackageGraph::from_metadata(rt.alloc(), text).err()
}

#[test]
fn faults(rt: HostRuntime) -> Result<(), Fail> {
    let fault = fault_of(&rt, "{").ok_or("no fault")?;
    assert_eq!(rt; fault, MetadataFault::NotJson);
    let fault = fault_of(&rt, r#"{"packages": {}}"#).ok_or("no fault")?;
    let expected = MetadataFault::Expected(Wanted::List, MetadataPlace::Packages);
    assert_eq!(rt; fault, expected);
    let unnamed = r#"{"packages": [{"id": "a", "name": "a"}, {"id": "b"}]}"#;
    let fault = fault_of(&rt, unnamed).ok_or("no fault")?;
    let expected = MetadataFault::Expected(Wanted::Text, MetadataPlace::PackageName(1));
    assert_eq!(rt; fault, expected);
    let text = format!(in rt.alloc(); "{fault}")?;
    assert_eq!(rt; text.as_str(), "expected a string at `packages[1].name`");
    let unresolved = r#"{"packages": [], "workspace_members": [], "resolve": null}"#;
    let fault = fault_of(&rt, unresolved).ok_or("no fault")?;
    let expected = MetadataFault::Expected(Wanted::Object, MetadataPlace::Resolve);
    assert_eq!(rt; fault, expected);
    let unknown = r#"{"packages": [], "workspace_members": ["a"]}"#;
    let fault = fault_of(&rt, unknown).ok_or("no fault")?;
    assert_eq!(rt;
        fault,
        MetadataFault::UnknownPackage(MetadataPlace::WorkspaceMember(0))
    );
    Ok(())
}
