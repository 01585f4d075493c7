//! What the text of a value that can be written is, and what it reads as.
ghost use Rattle.std.specs.Prelude.{◌≡◌, ◌≤◌, Some};
ghost use Rattle.std.specs.Str.{IsUtf8};
ghost use Rattle.serde_json.specs.Data.{Data, depth};
ghost use Rattle.serde_json.specs.Read.{read, max_depth};
ghost use Rattle.serde_json.specs.Written.{compact_text};
ghost use Rattle.read_back.specs.Writable.{HasNoControl, IsWritable};

/// The text of a value that can be written is UTF-8.
pub fn written_texts_are_utf8()
    ensures utf8 { (d : Data) → IsWritable d → IsUtf8 (compact_text d) }
{}

/// The text of a value that can be written reads as that value, where it nests no deeper than a
/// reader goes.
pub fn written_values_read_back()
    ensures same { (d : Data) → IsWritable d → depth d ≤ max_depth →
        read (compact_text d) ≡ Some d }
{}

/// The text of a value that can be written has no control byte, so it has no end of a line.
pub fn written_texts_have_no_control()
    ensures one_line { (d : Data) → IsWritable d → HasNoControl (compact_text d) }
{}
