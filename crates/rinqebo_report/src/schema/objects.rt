//! The JSON schema of what a runner needs of a profile.

/// The definitions of the objects of a profile.
pub const OBJECTS: &str = r##"    "objects": {
      "description": "What a runner needs of a profile beside the settings of tests.",
      "type": "object",
      "required": ["findings", "groups", "origins", "run", "setup-scripts", "wrappers"],
      "properties": {
        "run": { "$ref": "#/$defs/run" },
        "groups": { "type": "array", "items": { "$ref": "#/$defs/group" } },
        "setup-scripts": { "type": "array", "items": { "$ref": "#/$defs/setup-script" } },
        "wrappers": { "type": "array", "items": { "$ref": "#/$defs/wrapper" } },
        "findings": { "type": "array", "items": { "$ref": "#/$defs/load-warning" } },
        "origins": { "$ref": "#/$defs/object-origins" }
      },
      "additionalProperties": false
    },
    "run": {
      "description": "The values of a profile for a whole run.",
      "type": "object",
      "required": [
        "default-filter", "final-status-level", "global-timeout", "inherits", "junit", "max-fail",
        "profile", "profiles", "run-extra-args", "status-level", "store-dir", "test-threads"
      ],
      "properties": {
        "profile": { "type": "string" },
        "inherits": { "type": ["string", "null"] },
        "profiles": { "$ref": "#/$defs/texts" },
        "test-threads": { "$ref": "#/$defs/threads" },
        "max-fail": { "anyOf": [{ "type": "integer", "minimum": 1 }, { "const": "all" }] },
        "global-timeout": {
          "type": "object",
          "required": ["benchmark", "test"],
          "properties": {
            "test": { "$ref": "#/$defs/duration" },
            "benchmark": { "$ref": "#/$defs/duration" }
          },
          "additionalProperties": false
        },
        "status-level": {
          "enum": ["none", "fail", "retry", "slow", "leak", "pass", "skip", "all"]
        },
        "final-status-level": {
          "enum": ["none", "fail", "flaky", "slow", "skip", "leak", "pass", "all"]
        },
        "junit": {
          "type": ["object", "null"],
          "required": ["path", "report-name"],
          "properties": { "path": { "type": "string" }, "report-name": { "type": "string" } },
          "additionalProperties": false
        },
        "store-dir": { "type": "string" },
        "default-filter": { "type": "string" },
        "run-extra-args": { "$ref": "#/$defs/texts" }
      },
      "additionalProperties": false
    },
    "group": {
      "type": "object",
      "required": ["max-threads", "name"],
      "properties": {
        "name": { "type": "string" },
        "max-threads": { "$ref": "#/$defs/threads" }
      },
      "additionalProperties": false
    },
    "object-origins": {
      "description": "What decides the values of the run and of the groups.",
      "type": "object",
      "required": ["groups", "run"],
      "properties": {
        "run": { "$ref": "#/$defs/run-origins" },
        "groups": {
          "description": "Of the groups, by their names.",
          "type": "object",
          "additionalProperties": { "$ref": "#/$defs/origins" }
        }
      },
      "additionalProperties": false
    },
    "run-origins": {
      "description": "Of the members of the run.",
      "type": "object",
      "required": [
        "default-filter", "final-status-level", "global-timeout", "inherits", "junit", "max-fail",
        "run-extra-args", "status-level", "store-dir", "test-threads"
      ],
      "properties": {
        "inherits": { "$ref": "#/$defs/origins" },
        "test-threads": { "$ref": "#/$defs/origins" },
        "max-fail": { "$ref": "#/$defs/origins" },
        "global-timeout": {
          "type": "object",
          "required": ["benchmark", "test"],
          "properties": {
            "test": { "$ref": "#/$defs/origins" },
            "benchmark": { "$ref": "#/$defs/origins" }
          },
          "additionalProperties": false
        },
        "status-level": { "$ref": "#/$defs/origins" },
        "final-status-level": { "$ref": "#/$defs/origins" },
        "junit": {
          "type": "object",
          "required": ["path", "report-name"],
          "properties": {
            "path": { "$ref": "#/$defs/origins" },
            "report-name": { "$ref": "#/$defs/origins" }
          },
          "additionalProperties": false
        },
        "store-dir": { "$ref": "#/$defs/origins" },
        "default-filter": { "$ref": "#/$defs/origins" },
        "run-extra-args": { "$ref": "#/$defs/origins" }
      },
      "additionalProperties": false
    },
    "setup-script": {
      "type": "object",
      "required": [
        "capture-stderr", "capture-stdout", "command", "id", "junit", "leak-timeout",
        "slow-timeout", "tests"
      ],
      "properties": {
        "id": { "type": "string" },
        "command": { "$ref": "#/$defs/command" },
        "slow-timeout": {
          "type": ["object", "null"],
          "required": ["grace-period", "period", "terminate-after"],
          "properties": {
            "period": { "$ref": "#/$defs/duration" },
            "terminate-after": { "type": ["integer", "null"], "minimum": 1 },
            "grace-period": { "$ref": "#/$defs/duration" }
          },
          "additionalProperties": false
        },
        "leak-timeout": {
          "type": ["object", "null"],
          "required": ["period", "result"],
          "properties": {
            "period": { "$ref": "#/$defs/duration" },
            "result": { "enum": ["pass", "fail"] }
          },
          "additionalProperties": false
        },
        "capture-stdout": { "type": "boolean" },
        "capture-stderr": { "type": "boolean" },
        "junit": {
          "type": "object",
          "required": ["store-failure-output", "store-success-output"],
          "properties": {
            "store-success-output": { "type": "boolean" },
            "store-failure-output": { "type": "boolean" }
          },
          "additionalProperties": false
        },
        "tests": {
          "description": "The tests of the list that enable the script.",
          "type": "array",
          "items": {
            "type": "object",
            "required": ["binary-id", "name"],
            "properties": { "binary-id": { "type": "string" }, "name": { "type": "string" } },
            "additionalProperties": false
          }
        }
      },
      "additionalProperties": false
    },
    "wrapper": {
      "type": "object",
      "required": ["command", "id", "target-runner"],
      "properties": {
        "id": { "type": "string" },
        "command": { "$ref": "#/$defs/command" },
        "target-runner": {
          "enum": ["ignore", "overrides-wrapper", "within-wrapper", "around-wrapper"]
        }
      },
      "additionalProperties": false
    },
    "command": {
      "type": "object",
      "required": ["args", "env", "program", "relative-to"],
      "properties": {
        "program": { "type": "string" },
        "args": { "$ref": "#/$defs/texts" },
        "env": { "type": "object", "additionalProperties": { "type": "string" } },
        "relative-to": { "enum": ["none", "workspace-root", "target"] }
      },
      "additionalProperties": false
    },
    "load-warning": {
      "type": "object",
      "required": ["code", "count", "file", "names", "profile"],
      "properties": {
        "code": { "$ref": "#/$defs/code" },
        "file": { "type": "string" },
        "names": { "$ref": "#/$defs/texts" },
        "profile": { "type": ["string", "null"] },
        "count": { "type": ["integer", "null"], "minimum": 1 }
      },
      "additionalProperties": false
    },
"##;
