//! The first row of an interval that may forget ids.
ghost use Rattle.std.specs.Prelude.{◌≡◌, IfSome, IsSome, Some, cond, option_copied};
ghost use Rattle.std.specs.Ordering.{is_lt};
ghost use Rattle.mw_types.specs.Orders.{row_cmp};
ghost use Rattle.holdings.specs.Firsts.{earlier, earlier_of};
ghost use Rattle.holdings.specs.Holding.{held_at};
ghost use Rattle.holdings.specs.Purges.{IsFirstToPurge, by_name, forgets, seen_name};

use crate::holdings::Holdings;
use mw_types::RowName;
use row_parts::Row;

impl Holdings {
    /// The first row, by key, of an interval that is held, that may forget ids: its floor is below
    /// this one, and it has at least so many seen ids, and one.
    pub fn to_purge(&self, interval: u32, floor: u64, least: u64) -> Option<&RowName>
        requires there { IsSome (held_at self.now interval) }
        ensures first { IfSome (held_at self.now interval)
            (λ held. IsFirstToPurge floor least held.rows (option_copied result)) }
    {
        self.held(interval).to_purge(floor, least)
    }
}

// Of a row's name and that of one that may forget ids the one that is before.
pub(crate) fn earlier_name<'a>(
    best: Option<&'a RowName>,
    name: &'a RowName,
    row: &Row,
    floor: u64,
    least: u64,
) -> Option<&'a RowName>
    ensures { seen_name result
        ≡ earlier (forgets floor least) by_name (seen_name best.entry) (name.now, row.now) }
{
    if row.floor < floor && least.max(1) <= row.seen.len() as u64 {
        lesser_name(best, name)
    } else {
        best
    }
}

// Of a row's name and another the one that is before.
fn lesser_name<'a>(best: Option<&'a RowName>, name: &'a RowName) -> Option<&'a RowName>
    ensures { seen_name result ≡ earlier_of by_name (seen_name best.entry) name.now (Some tt) }
{
    match best {
        Some(other) => Some(lesser(name, other)),
        None => Some(name),
    }
}

// Of two names the one that is before.
fn lesser<'a>(name: &'a RowName, other: &'a RowName) -> &'a RowName
    ensures { result.now ≡ cond (is_lt (row_cmp name.now other.now)) name.now other.now }
{
    if name.cmp(other).is_lt() { name } else { other }
}
