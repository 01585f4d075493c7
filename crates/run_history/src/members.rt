//! Members of a JSON object, put one by one.
ghost use Rattle.std.specs.Prelude.{◌≡◌, codes, OnOk};
ghost use Rattle.row_parts.specs.Contents.{IsId};
ghost use Rattle.run_history.specs.HistoryLines.{id_data};
ghost use Rattle.serde_json.specs.Data.{boolean, number, put, string, unsigned};
ghost use Rattle.serde_json.specs.Find.{of_integer};
ghost use Rattle.serde_json.specs.View.{members_view};

use mw_types::{NoMemory, RecordId, RowName};
use serde_json::{Map, Value};
use std::alloc::Global;

// Puts a text under a name.
pub(crate) fn put_text(
    alloc: Global,
    map: &mut Map<String, Value>,
    name: &str,
    text: &str,
) -> Result<(), NoMemory>
    ensures { OnOk result (members_view map.new.entries
        ≡ put name.now (string text.now) (members_view map.old.entries)) }
{
    serde_json::put(map, alloc, name, Value::try_from_str(alloc, text)?)?;
    Ok(())
}

// Puts a number under a name.
pub(crate) fn put_number(
    alloc: Global,
    map: &mut Map<String, Value>,
    name: &str,
    value: u64,
) -> Result<(), NoMemory>
    ensures { OnOk result (members_view map.new.entries
        ≡ put name.now (number (unsigned value)) (members_view map.old.entries)) }
{
    serde_json::put(map, alloc, name, Value::from(value))?;
    Ok(())
}

// Puts a number that may be negative under a name.
pub(crate) fn put_integer(
    alloc: Global,
    map: &mut Map<String, Value>,
    name: &str,
    value: i64,
) -> Result<(), NoMemory>
    ensures { OnOk result (members_view map.new.entries
        ≡ put name.now (number (of_integer value)) (members_view map.old.entries)) }
{
    serde_json::put(map, alloc, name, Value::from(value))?;
    Ok(())
}

// Puts whether something is so under a name.
pub(crate) fn put_flag(
    alloc: Global,
    map: &mut Map<String, Value>,
    name: &str,
    flag: bool,
) -> Result<(), NoMemory>
    ensures { OnOk result (members_view map.new.entries
        ≡ put name.now (boolean flag) (members_view map.old.entries)) }
{
    serde_json::put(map, alloc, name, Value::from(flag))?;
    Ok(())
}

// Puts an id, as it is printed.
pub(crate) fn put_id(
    alloc: Global,
    map: &mut Map<String, Value>,
    id: RecordId,
) -> Result<(), NoMemory>
    requires { IsId id }
    ensures { OnOk result (members_view map.new.entries
        ≡ put (codes "id") (id_data id) (members_view map.old.entries)) }
{
    let id = id.uuid(alloc)?;
    put_text(alloc, map, "id", id.text())
}

// Puts the name of a row.
pub(crate) fn put_row(
    alloc: Global,
    map: &mut Map<String, Value>,
    row: &RowName,
) -> Result<(), NoMemory>
    ensures { OnOk result (members_view map.new.entries
        ≡ put (codes "row") (string row.now.key)
        (put (codes "part") (number (unsigned row.now.part)) (members_view map.old.entries))) }
{
    put_number(alloc, map, "part", u64::from(row.part))?;
    put_text(alloc, map, "row", row.key.text())
}
