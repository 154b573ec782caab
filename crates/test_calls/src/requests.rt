//! Requests of the library that are not understood: what is expected, and where.
use rinqebo_forms::LoadRequest;
use std::alloc::{AllocError, Global};
use std::test::Fail;

/// A request whose member of a key has another value than one that is understood.
#[derive(Drop)]
struct Changed<'a> {
    alloc: Global,
    key: &'a str,
    value: &'a str,
    text: String,
}

impl<'a> Changed<'a> {
    /// Adds a member, with its usual value unless it is the one that has another.
    fn with(mut self, member: &str, usual: &str) -> Result<Changed<'a>, AllocError> {
        let value = if member == self.key {
            self.value
        } else {
            usual
        };
        let member = format!(in self.alloc; ", \"{member}\": {value}")?;
        self.text.push_str(member.as_str())?;
        Ok(self)
    }
}

/// A request that is understood, with another value for a member.
fn request_with(alloc: Global, key: &str, value: &str) -> Result<String, AllocError> {
    let changed = Changed {
        alloc,
        key,
        value,
        text: String::from_str(alloc, "{\"further\": 0")?,
    };
    let mut text = changed
        .with("root", r#""/w""#)?
        .with("file", r#"{"path": "/f", "outcome": "text", "text": ""}"#)?
        .with("config-file", "null")?
        .with("organisation-config-file", "null")?
        .with("tools", "[]")?
        .with(
            "features",
            r#"{"setup-scripts": false, "wrapper-scripts": false}"#,
        )?
        .with("metadata", "null")?
        .with("host", r#"{"triple": "t", "cfg": null}"#)?
        .with("target", "null")?
        .text;
    text.push_str("}")?;
    Ok(text)
}

#[test]
fn says_what_is_expected(rt: HostRuntime) -> Result<(), Fail> {
    let alloc = rt.alloc();
    let usual = request_with(alloc, "further", "0")?;
    assert!(rt; LoadRequest::read(alloc, usual.as_str()).is_ok());
    for (key, value, reason) in [
        ("root", "null", "expected a string at `root`"),
        ("file", "[]", "expected an object at `file`"),
        (
            "file",
            r#"{"path": "/f", "outcome": "text", "text": null}"#,
            "expected a string at `file.text`",
        ),
        (
            "file",
            r#"{"path": "/f", "outcome": "not-found", "text": ""}"#,
            "expected null at `file.text`",
        ),
        (
            "config-file",
            r#""/c""#,
            "expected an object or null at `config-file`",
        ),
        (
            "organisation-config-file",
            "[]",
            "expected an object or null at `organisation-config-file`",
        ),
        ("tools", "{}", "expected an array at `tools`"),
        ("features", "null", "expected an object at `features`"),
        (
            "features",
            r#"{"setup-scripts": 0, "wrapper-scripts": false}"#,
            "expected true or false at `features.setup-scripts`",
        ),
        (
            "features",
            r#"{"setup-scripts": false}"#,
            "expected true or false at `features.wrapper-scripts`",
        ),
        ("metadata", "{}", "expected a string or null at `metadata`"),
        ("host", r#""t""#, "expected an object at `host`"),
        (
            "host",
            r#"{"triple": "t", "cfg": false}"#,
            "expected a string or null at `host.cfg`",
        ),
        ("target", "[]", "expected an object or null at `target`"),
    ] {
        let request = request_with(alloc, key, value)?;
        let fault = LoadRequest::read(alloc, request.as_str()).err();
        let told = format!(in alloc; "{}", fault.ok_or("no fault")?)?;
        assert_eq!(rt; told.as_str(), reason);
    }
    Ok(())
}
