//! The laws of the JSON schema of a configuration file: which files are valid by it.
ghost use Rattle.std.specs.Prelude.{◌≡◌, ◌↔◌, [], IsTrue};
ghost use Rattle.nextest_documents.specs.Merge.{over};
ghost use Rattle.nextest_shape.specs.Accepts.{Accepts, HasPattern};
ghost use Rattle.nextest_shape.specs.FileForm.{file_form};
ghost use Rattle.nextest_shape.specs.Form.{Form};
ghost use Rattle.nextest_shape.specs.Page.{schema_data};
ghost use Rattle.nextest_tables.specs.Complete.{IsReadable};
ghost use Rattle.nextest_tables.specs.Defaults.{defaults};
ghost use Rattle.nextest_tables.specs.Tables.{a_file};
ghost use Rattle.nextest_tree.specs.Node.{Node};
ghost use Rattle.nextest_tree.specs.Schema.{unknown};
ghost use Rattle.rinqebo_laws.specs.Matching.{AcceptsBy, IsMatched, MatchesOnlyPatterns, MatchesPatterns, has_each_key_once};
ghost use Rattle.rinqebo_laws.specs.Validation.{Matcher, Validates};

use nextest_shape::law_schema;

/// A value is valid by the JSON schema of a shape exactly if the shape accepts it, where the texts
/// of a pattern are those that match its regular expression, whatever matches one. This holds for
/// each shape whose tables have each key once (`every`), and for the shape of files (`file`).
///
/// For `Accepts` the texts of a pattern are those that the readers accept (`meant`). If each of
/// them matches its expression, every value that the shape of files accepts is valid (`accepted`).
/// If no other text matches, no other value is valid (`valid`).
pub fn law_schema_validates()
    ensures every { (matches : Matcher) → (form : Form) → IsTrue (has_each_key_once form)
        → (value : Node) → Validates matches (schema_data form) value
        ↔ AcceptsBy (IsMatched matches) form value }
    ensures file { (matches : Matcher) → (value : Node)
        → Validates matches (schema_data file_form) value
        ↔ AcceptsBy (IsMatched matches) file_form value }
    ensures meant { (form : Form) → (value : Node)
        → AcceptsBy HasPattern form value ↔ Accepts form value }
    ensures accepted { (matches : Matcher) → MatchesPatterns matches → (value : Node)
        → Accepts file_form value → Validates matches (schema_data file_form) value }
    ensures valid { (matches : Matcher) → MatchesOnlyPatterns matches → (value : Node)
        → Validates matches (schema_data file_form) value → Accepts file_form value }
{}

/// A file that loads without faults of its elements and without unknown keys, over the table of
/// defaults, is valid as it is written by the JSON schema of files, if each text of a pattern
/// matches its regular expression. So what the schema refuses has a fault or an unknown key.
pub fn law_loaded_file_is_valid()
    ensures { (matches : Matcher) → MatchesPatterns matches → (file : Node) → IsReadable file
        → unknown a_file [] (over file defaults) ≡ []
        → Validates matches (schema_data file_form) file }
{
    law_schema();
    law_schema_validates();
}
