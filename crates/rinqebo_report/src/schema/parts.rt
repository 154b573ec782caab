//! The JSON schema of what several kinds of documents have.

/// The definitions of what several documents have, and the end of the schema.
pub const PARTS: &str = r##"    "test-id": {
      "type": "object",
      "required": ["binary-id", "name", "platform"],
      "properties": {
        "binary-id": { "type": "string" },
        "name": { "type": "string" },
        "platform": { "$ref": "#/$defs/platform" }
      },
      "additionalProperties": false
    },
    "sources": {
      "description": "The files that were read, the lowest first.",
      "type": "array",
      "items": {
        "type": "object",
        "required": ["kind", "path", "tool"],
        "properties": {
          "kind": { "enum": ["default", "tool", "organisation", "explicit", "discovered"] },
          "tool": { "type": ["string", "null"] },
          "path": { "type": ["string", "null"] }
        },
        "additionalProperties": false
      }
    },
    "origins": { "type": "array", "items": { "$ref": "#/$defs/origin" } },
    "origin": {
      "description": "What decides a value, and where it is written.",
      "type": "object",
      "required": ["index", "kind", "lines", "profile", "range", "source"],
      "properties": {
        "kind": {
          "enum": ["built-in", "default-table", "profile", "override", "script", "file"]
        },
        "profile": { "type": ["string", "null"] },
        "index": {
          "description": "The place of a rule among those of its file and profile, from 0.",
          "type": ["integer", "null"],
          "minimum": 0
        },
        "source": { "$ref": "#/$defs/source-index" },
        "lines": { "$ref": "#/$defs/lines" },
        "range": { "$ref": "#/$defs/range" }
      },
      "additionalProperties": false
    },
    "source-index": {
      "description": "A place among the sources, from 0.",
      "type": ["integer", "null"],
      "minimum": 0
    },
    "lines": { "anyOf": [{ "$ref": "#/$defs/known-lines" }, { "type": "null" }] },
    "known-lines": {
      "description": "The first line and the last, from 1.",
      "type": "array",
      "items": { "type": "integer", "minimum": 1 },
      "minItems": 2,
      "maxItems": 2
    },
    "range": { "anyOf": [{ "$ref": "#/$defs/known-range" }, { "type": "null" }] },
    "known-range": {
      "description": "The line and column of the first character, and of the one behind.",
      "type": "array",
      "items": {
        "type": "array",
        "items": { "type": "integer", "minimum": 1 },
        "minItems": 2,
        "maxItems": 2
      },
      "minItems": 2,
      "maxItems": 2
    },
    "value": {
      "description": "A duration is one number and its unit.",
      "type": ["boolean", "integer", "string", "array", "object", "null"],
      "items": { "type": "string" },
      "additionalProperties": { "type": ["boolean", "integer", "string"] }
    },
    "texts": { "type": "array", "items": { "type": "string" } },
    "count": { "type": "integer", "minimum": 0 },
    "key": { "description": "A key, as files spell it.", "type": "string" },
    "code": { "type": "string", "pattern": "^[a-z]+(-[a-z]+)*$" },
    "ignored": { "description": "LIST marks the test as ignored.", "const": true },
    "platform": { "enum": ["host", "target"] },
    "mode": { "enum": ["test", "benchmark"] },
    "condition": { "enum": ["absent", "yes", "no", "unknown", "unasked"] },
    "duration": { "type": "string", "pattern": "^[0-9]+(y|d|h|m|s|ms|us|ns)$" },
    "threads": { "anyOf": [{ "type": "integer" }, { "const": "num-cpus" }] },
    "chain": {
      "description": "The profiles that count, the nearest first.",
      "type": "array",
      "items": { "type": "string" }
    },
    "host": { "description": "The triple of the machine that builds.", "type": "string" },
    "target": {
      "description": "The triple of the machine that is built for, or null.",
      "type": ["string", "null"]
    }
  }
}
"##;
