//! One line of the result, in its order and as text.
ghost use Rattle.std.specs.Prelude.{◌≡◌, ◌++◌, ◌∷◌, [], IfOk, OnOk};
ghost use Rattle.json.specs.Token.{key, string};
ghost use Rattle.run_history.specs.Texts.{line_data, as_line};
ghost use Rattle.run_history.specs.Printing.{number_tokens, text_tokens, tokens_of};

use json::Writer;
use mw_types::{Key, Name, NoMemory};
use std::marker::Model;

/// What one line of the result tells of an emission. Lines stand in the order of these fields.
#[derive(Drop, PartialEq, Eq, PartialOrd, Ord)]
pub struct ResultLine {
    /// The stream that nothing reads.
    pub stream: Name,
    /// The record's timestamp, in whole microseconds.
    pub stamp: u64,
    /// Its key.
    pub key: Key,
    /// Its value.
    pub value: i64,
}

impl Model for ResultLine {
    ghost use Rattle.run_history.specs.Texts.{ResultLine};

    ghost Value = { ResultLine };

    ghost view = { λ l. record { stream = l.stream; stamp = l.stamp; key = l.key; value = l.value } };

    ghost inverse = { λ l. record { stream = l.stream; stamp = l.stamp; key = l.key; value = l.value } };
}

impl ResultLine {
    /// The line's text, with its LF, in a buffer that holds nothing.
    pub fn text(&self, buffer: Vec<u8>) -> Result<Vec<u8>, NoMemory>
        requires { buffer.items ≡ [] }
        ensures { IfOk result (λ text. text.items ≡ as_line (line_data self.now)) }
    {
        let mut writer = Writer::new(buffer);
        self.write(&mut writer)?;
        let mut text = writer.into_inner();
        text.push(b'\n')?;
        Ok(text)
    }

    // Writes the line as an object.
    fn write(&self, writer: &mut Writer) -> Result<(), NoMemory>
        ensures before { OnOk result (writer.new.before ≡ writer.old.before) }
        ensures object { OnOk result
            (writer.new.tokens ≡ writer.old.tokens ++ tokens_of (line_data self.now)) }
    {
        writer.begin_object()?;
        self.write_texts(writer)?;
        self.write_numbers(writer)?;
        writer.end_object()?;
        Ok(())
    }

    // Writes the key and the stream.
    fn write_texts(&self, writer: &mut Writer) -> Result<(), NoMemory>
        ensures before { OnOk result (writer.new.before ≡ writer.old.before) }
        ensures members { OnOk result
            (writer.new.tokens ≡ writer.old.tokens ++ text_tokens self.now) }
    {
        write_text(writer, "key", self.key.text())?;
        write_text(writer, "stream", self.stream.text())?;
        Ok(())
    }

    // Writes the timestamp and the value.
    fn write_numbers(&self, writer: &mut Writer) -> Result<(), NoMemory>
        ensures before { OnOk result (writer.new.before ≡ writer.old.before) }
        ensures members { OnOk result
            (writer.new.tokens ≡ writer.old.tokens ++ number_tokens self.now) }
    {
        writer.key("ts")?;
        writer.u64(self.stamp)?;
        writer.key("value")?;
        writer.i64(self.value)?;
        Ok(())
    }
}

// Writes a member that is a text.
fn write_text(writer: &mut Writer, name: &str, text: &str) -> Result<(), NoMemory>
    ensures before { OnOk result (writer.new.before ≡ writer.old.before) }
    ensures member { OnOk result
        (writer.new.tokens ≡ writer.old.tokens ++ key name.now ∷ string text.now ∷ []) }
{
    writer.key(name)?;
    writer.string(text)?;
    Ok(())
}
