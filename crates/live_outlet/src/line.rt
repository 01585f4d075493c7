//! What a live line tells, and its text.
ghost use Rattle.std.specs.Prelude.{◌≡◌, ◌++◌, ◌∷◌, [], codes, IfOk, IsTrue, OnOk};
ghost use Rattle.mw_types.specs.PrintedIds.{printed_id};
ghost use Rattle.json.specs.Token.{key, string};
ghost use Rattle.row_parts.specs.Contents.{IsId};
ghost use Rattle.mw_types.specs.Bounds.{IsKey};
ghost use Rattle.topology.specs.Rules.{is_name};
ghost use Rattle.run_history.specs.Printing.{tokens_of};
ghost use Rattle.live_outlet.specs.LiveLines.{live_data, live_text, IsLive};
ghost use Rattle.live_outlet.specs.Tokens.{number_tokens, text_tokens};

use json::Writer;
use mw_types::{Name, NoMemory, RecordId, Text};
use std::alloc::Global;
use std::marker::Model;

/// What a live line tells of an emission.
#[derive(Drop)]
pub struct LiveLine {
    /// The emission's id.
    pub id: RecordId,
    /// The record's key.
    pub key: Text,
    /// The stream that nothing reads.
    pub stream: Name,
    /// The record's timestamp, in whole microseconds.
    pub stamp: u64,
    /// Its value.
    pub value: i64,
}

impl Model for LiveLine {
    ghost use Rattle.live_outlet.specs.LiveLines.{LiveLine};

    ghost Value = { LiveLine };

    ghost view = { λ l. record { id = l.id; key = l.key; stream = l.stream; stamp = l.stamp; value = l.value } };

    ghost inverse = { λ l. record { id = l.id; key = l.key; stream = l.stream; stamp = l.stamp; value = l.value } };
}

// The line that tells this.
pub(crate) fn told(id: RecordId, key: Text, stream: Name, stamp: u64, value: i64) -> LiveLine
    requires id { IsId id }
    requires key { IsKey key }
    requires stream { IsTrue (is_name stream) }
    ensures line { result
        ≡ record { id = id; key = key; stream = stream; stamp = stamp; value = value } }
    ensures live { IsLive result }
{
    LiveLine {
        id,
        key,
        stream,
        stamp,
        value,
    }
}

impl LiveLine {
    // The line's text, without its LF.
    pub(crate) fn text(&self, alloc: Global) -> Result<Vec<u8>, NoMemory>
        requires { IsId self.now.id }
        ensures { IfOk result (λ text. text.items ≡ live_text self.now) }
    {
        let mut writer = Writer::new(Vec::with_capacity(alloc, LINE_ROOM)?);
        self.write(alloc, &mut writer)?;
        Ok(writer.into_inner())
    }

    // Writes the line as an object.
    fn write(&self, alloc: Global, writer: &mut Writer) -> Result<(), NoMemory>
        requires { IsId self.now.id }
        ensures before { OnOk result (writer.new.before ≡ writer.old.before) }
        ensures object { OnOk result
            (writer.new.tokens ≡ writer.old.tokens ++ tokens_of (live_data self.now)) }
    {
        writer.begin_object()?;
        self.write_texts(alloc, writer)?;
        self.write_numbers(writer)?;
        writer.end_object()?;
        Ok(())
    }

    // Writes the id, the key and the stream.
    fn write_texts(&self, alloc: Global, writer: &mut Writer) -> Result<(), NoMemory>
        requires { IsId self.now.id }
        ensures before { OnOk result (writer.new.before ≡ writer.old.before) }
        ensures members { OnOk result
            (writer.new.tokens ≡ writer.old.tokens ++ text_tokens self.now) }
    {
        write_id(alloc, writer, self.id)?;
        write_text(writer, "key", self.key.text())?;
        write_text(writer, "stream", self.stream.text())?;
        Ok(())
    }

    // Writes the timestamp and the value.
    fn write_numbers(&self, writer: &mut Writer) -> Result<(), NoMemory>
        ensures before { OnOk result (writer.new.before ≡ writer.old.before) }
        ensures members { OnOk result
            (writer.new.tokens ≡ writer.old.tokens ++ number_tokens self.now) }
    {
        writer.key("ts")?;
        writer.u64(self.stamp)?;
        writer.key("value")?;
        writer.i64(self.value)?;
        Ok(())
    }
}

// Room for a line of the usual length.
const LINE_ROOM: usize = 160;

// Writes the member that is the id.
fn write_id(alloc: Global, writer: &mut Writer, id: RecordId) -> Result<(), NoMemory>
    requires { IsId id }
    ensures before { OnOk result (writer.new.before ≡ writer.old.before) }
    ensures member { OnOk result (writer.new.tokens
        ≡ writer.old.tokens ++ key (codes "id") ∷ string (printed_id id) ∷ []) }
{
    let id = id.uuid(alloc)?;
    write_text(writer, "id", id.text())
}

// Writes a member that is a text.
fn write_text(writer: &mut Writer, name: &str, text: &str) -> Result<(), NoMemory>
    ensures before { OnOk result (writer.new.before ≡ writer.old.before) }
    ensures member { OnOk result
        (writer.new.tokens ≡ writer.old.tokens ++ key name.now ∷ string text.now ∷ []) }
{
    writer.key(name)?;
    writer.string(text)?;
    Ok(())
}
