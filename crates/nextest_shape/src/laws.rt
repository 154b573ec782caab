//! What the shape of a file says of the files that load.
ghost use Rattle.std.specs.Prelude.{◌≡◌, []};
ghost use Rattle.nextest_shape.specs.Accepts.{Accepts};
ghost use Rattle.nextest_shape.specs.FileForm.{file_form};
ghost use Rattle.nextest_shape.specs.Mild.{AreMild};
ghost use Rattle.nextest_documents.specs.Merge.{over};
ghost use Rattle.nextest_tables.specs.Complete.{IsReadable};
ghost use Rattle.nextest_tables.specs.Defaults.{defaults};
ghost use Rattle.nextest_tables.specs.Tables.{a_file};
ghost use Rattle.nextest_tree.specs.Node.{IsSorted, Node};
ghost use Rattle.nextest_tree.specs.Schema.{faults, unknown};

/// A file that loads without faults of its elements and without unknown keys, over the table of
/// defaults, is accepted by the shape of files as it is written.
pub fn law_schema()
    ensures { (file : Node) → IsReadable file → unknown a_file [] (over file defaults) ≡ []
        → Accepts file_form file }
{}

/// The shape of files has the keys that files have, and no others: a file that it accepts, and whose
/// keys ascend as those of each document do, has no unknown key.
pub fn law_keys()
    ensures { (file : Node) → IsSorted file → Accepts file_form file
        → unknown a_file [] file ≡ [] }
{}

/// Of the values of a file that the shape accepts, and whose keys ascend as those of each document
/// do, none is of a wrong kind or a bad text, and no key is refused: its faults are only of what is
/// missing, or out of its range.
pub fn law_values()
    ensures { (file : Node) → IsSorted file → Accepts file_form file
        → AreMild (faults a_file [] file) }
{}
