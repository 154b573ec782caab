//! The JSON schema of the documents of `check`, `explain`, `list` and `show-config`.

/// The beginning of the schema, and the definitions of the documents of a report.
pub const REPORTS: &str = r##"{
  "$schema": "https://json-schema.org/draft/2020-12/schema",
  "title": "Documents of rinqebo",
  "description": "What rinqebo prints with --format json, and its library returns.",
  "oneOf": [
    { "$ref": "#/$defs/check" },
    { "$ref": "#/$defs/report" },
    { "$ref": "#/$defs/diff" }
  ],
  "$defs": {
    "check": {
      "description": "The document of check.",
      "type": "object",
      "required": ["command", "findings", "request", "root", "sources", "summary", "version"],
      "properties": {
        "version": { "const": 1 },
        "command": { "const": "check" },
        "request": { "$ref": "#/$defs/request" },
        "root": { "description": "The root of the workspace.", "type": "string" },
        "sources": { "$ref": "#/$defs/sources" },
        "findings": { "type": "array", "items": { "$ref": "#/$defs/finding" } },
        "summary": {
          "description": "How many findings there are.",
          "type": "object",
          "required": ["errors", "findings", "warnings"],
          "properties": {
            "errors": { "$ref": "#/$defs/count" },
            "findings": { "$ref": "#/$defs/count" },
            "warnings": { "$ref": "#/$defs/count" }
          },
          "additionalProperties": false
        },
        "unreached": {
          "type": "array",
          "items": { "$ref": "#/$defs/unreached" },
          "minItems": 1
        }
      },
      "additionalProperties": false
    },
    "report": {
      "description": "The document of explain, list and show-config.",
      "type": "object",
      "required": [
        "chain", "command", "entries", "findings", "host", "list-wrappers", "mode", "profile",
        "request", "root", "rules", "setup-scripts", "sources", "target", "tests", "unreached",
        "unused", "version"
      ],
      "properties": {
        "version": { "const": 1 },
        "command": { "enum": ["explain", "list", "show-config"] },
        "request": { "$ref": "#/$defs/request" },
        "root": { "description": "The root of the workspace.", "type": "string" },
        "profile": { "type": ["string", "null"] },
        "chain": { "$ref": "#/$defs/chain" },
        "mode": { "enum": ["test", "benchmark", null] },
        "host": { "type": ["string", "null"] },
        "target": { "$ref": "#/$defs/target" },
        "sources": { "$ref": "#/$defs/sources" },
        "findings": { "type": "array", "items": { "$ref": "#/$defs/finding" } },
        "unreached": { "type": "array", "items": { "$ref": "#/$defs/unreached" } },
        "tests": { "type": "array", "items": { "$ref": "#/$defs/test" } },
        "key": { "description": "The KEY of --why.", "$ref": "#/$defs/key" },
        "test": { "$ref": "#/$defs/test-id" },
        "ignored": { "$ref": "#/$defs/ignored" },
        "rules": { "type": "array", "items": { "$ref": "#/$defs/rule" } },
        "entries": { "type": "array", "items": { "$ref": "#/$defs/entry" } },
        "unused": { "description": "The rules that match no test.", "$ref": "#/$defs/origins" },
        "setup-scripts": {
          "description": "The ids of those that run, in order.",
          "$ref": "#/$defs/texts"
        },
        "list-wrappers": { "type": "array", "items": { "$ref": "#/$defs/list-wrapper" } },
        "objects": { "$ref": "#/$defs/objects" }
      },
      "additionalProperties": false
    },
    "request": {
      "description": "The command, and what the user names.",
      "type": "object",
      "required": ["command"],
      "properties": {
        "command": { "enum": ["explain", "list", "show-config", "check", "diff"] },
        "test": {
          "type": "object",
          "required": ["name"],
          "properties": {
            "binary-id": { "type": "string" },
            "name": { "type": "string" }
          },
          "additionalProperties": false
        },
        "keys": {
          "description": "The KEYs, in order.",
          "type": "array",
          "items": { "$ref": "#/$defs/key" },
          "minItems": 1
        },
        "why": { "description": "The KEY of --why.", "$ref": "#/$defs/key" },
        "by": { "description": "The KEY of --by.", "$ref": "#/$defs/key" },
        "list": { "description": "The path of LIST, or - for standard input.", "type": "string" }
      },
      "additionalProperties": false
    },
    "test": {
      "type": "object",
      "required": ["binary-id", "name", "platform", "runs", "settings"],
      "properties": {
        "binary-id": { "type": "string" },
        "name": { "type": "string" },
        "platform": { "$ref": "#/$defs/platform" },
        "runs": {
          "description": "Whether the test runs.",
          "type": "object",
          "required": ["origins", "value"],
          "properties": {
            "value": { "type": "boolean" },
            "origins": { "$ref": "#/$defs/origins" },
            "ignored": { "$ref": "#/$defs/ignored" }
          },
          "additionalProperties": false
        },
        "settings": {
          "description": "Settings by their keys.",
          "type": "object",
          "additionalProperties": { "$ref": "#/$defs/setting" }
        }
      },
      "additionalProperties": false
    },
    "setting": {
      "type": "object",
      "required": ["origins", "value"],
      "properties": {
        "value": { "$ref": "#/$defs/value" },
        "origins": { "$ref": "#/$defs/origins" }
      },
      "additionalProperties": false
    },
    "rule": {
      "description": "A rule and its verdict, or the fallback.",
      "type": "object",
      "required": ["filter", "host", "origin", "other-origins", "target", "value", "verdict"],
      "properties": {
        "verdict": {
          "enum": [
            "platform no", "filter no", "sets nothing", "decided before", "decides", "fallback"
          ]
        },
        "origin": { "$ref": "#/$defs/origin" },
        "other-origins": { "$ref": "#/$defs/origins" },
        "host": { "$ref": "#/$defs/condition" },
        "target": { "$ref": "#/$defs/condition" },
        "filter": { "$ref": "#/$defs/condition" },
        "value": { "$ref": "#/$defs/value" }
      },
      "additionalProperties": false
    },
    "entry": {
      "description": "A leaf that a file or the default table writes.",
      "type": "object",
      "required": ["hidden", "key", "origin", "value"],
      "properties": {
        "key": { "$ref": "#/$defs/key" },
        "value": { "$ref": "#/$defs/value" },
        "origin": { "$ref": "#/$defs/origin" },
        "hidden": { "type": "boolean" }
      },
      "additionalProperties": false
    },
    "list-wrapper": {
      "type": "object",
      "required": ["binary-id", "value"],
      "properties": {
        "binary-id": { "type": "string" },
        "value": { "description": "The id of the wrapper script.", "type": "string" }
      },
      "additionalProperties": false
    },
    "finding": {
      "type": "object",
      "required": ["code", "level", "message"],
      "properties": {
        "level": { "enum": ["error", "warning"] },
        "code": { "$ref": "#/$defs/code" },
        "upstream": {
          "description": "The name that nextest-runner has for it.",
          "type": "string",
          "minLength": 1
        },
        "message": { "type": "string" },
        "source": { "description": "A place among the sources.", "$ref": "#/$defs/count" },
        "lines": { "$ref": "#/$defs/known-lines" },
        "range": { "$ref": "#/$defs/known-range" },
        "column": {
          "description": "Where a text that is not a document is at fault.",
          "type": "integer",
          "minimum": 1
        },
        "path": {
          "description": "The keys and the positions that lead to the value.",
          "type": "array",
          "items": {
            "anyOf": [{ "type": "string" }, { "$ref": "#/$defs/count" }]
          },
          "minItems": 1
        },
        "expression": {
          "description": "The refused expression.",
          "type": "string",
          "minLength": 1
        },
        "span": {
          "description": "Its first character that is at fault, and the one behind the last.",
          "type": "array",
          "items": { "$ref": "#/$defs/count" },
          "minItems": 2,
          "maxItems": 2
        },
        "expected": { "type": "string", "minLength": 1 },
        "notes": { "type": "array", "items": { "type": "string" }, "minItems": 1 },
        "help": { "type": "string", "minLength": 1 }
      },
      "additionalProperties": false
    },
    "unreached": {
      "description": "The checks of a source that were not reached.",
      "type": "object",
      "required": ["checks", "source"],
      "properties": {
        "source": { "$ref": "#/$defs/count" },
        "checks": { "type": "array", "items": { "type": "string" } }
      },
      "additionalProperties": false
    },
"##;
