//! The JSON schema of the documents of `diff`.

/// The definitions of the document of a diff.
pub const DIFFS: &str = r##"    "diff": {
      "description": "What changes from one side to another.",
      "type": "object",
      "required": [
        "added", "changed", "changes", "command", "compared", "from", "removed", "run", "to",
        "version"
      ],
      "properties": {
        "version": { "const": 1 },
        "command": { "const": "diff" },
        "from": { "$ref": "#/$defs/side" },
        "to": { "$ref": "#/$defs/side" },
        "compared": { "description": "How many tests both lists have.", "$ref": "#/$defs/count" },
        "changed": { "description": "How many of them change.", "$ref": "#/$defs/count" },
        "changes": { "type": "array", "items": { "$ref": "#/$defs/change" } },
        "removed": { "type": "array", "items": { "$ref": "#/$defs/test-id" } },
        "added": { "type": "array", "items": { "$ref": "#/$defs/test-id" } },
        "run": {
          "description": "Of the whole run.",
          "type": "array",
          "items": { "$ref": "#/$defs/run-change" }
        }
      },
      "additionalProperties": false
    },
    "change": {
      "type": "object",
      "required": ["from", "tests", "to"],
      "properties": {
        "from": { "$ref": "#/$defs/given" },
        "to": { "$ref": "#/$defs/given" },
        "tests": { "type": "array", "items": { "$ref": "#/$defs/test-id" }, "minItems": 1 }
      },
      "additionalProperties": false
    },
    "run-change": {
      "type": "object",
      "required": ["from", "to"],
      "properties": { "from": { "$ref": "#/$defs/given" }, "to": { "$ref": "#/$defs/given" } },
      "additionalProperties": false
    },
    "side": {
      "description": "A side of a diff.",
      "type": "object",
      "required": ["chain", "host", "mode", "profile", "root", "sources", "target"],
      "properties": {
        "profile": { "type": "string" },
        "chain": { "$ref": "#/$defs/chain" },
        "mode": { "$ref": "#/$defs/mode" },
        "host": { "$ref": "#/$defs/host" },
        "target": { "$ref": "#/$defs/target" },
        "root": { "type": "string" },
        "sources": { "$ref": "#/$defs/sources" }
      },
      "additionalProperties": false
    },
    "given": {
      "description": "The value of a setting on one side, and what decides it.",
      "type": "object",
      "required": ["key", "origins", "value"],
      "properties": {
        "key": { "$ref": "#/$defs/key" },
        "value": { "$ref": "#/$defs/value" },
        "origins": { "$ref": "#/$defs/origins" },
        "ignored": { "$ref": "#/$defs/ignored" }
      },
      "additionalProperties": false
    },
"##;
