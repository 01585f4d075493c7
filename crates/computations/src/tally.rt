//! Numbers of records, which go no further than the greatest timestamp.
ghost use Rattle.std.specs.Prelude.{◌≡◌, if◌then◌else◌};
ghost use Rattle.computations.specs.Handlers.{one_more};

use mw_types::MAX_STAMP;

// A number with one more.
pub(crate) fn one_more(count: u64) -> u64
    ensures { result ≡ one_more count }
{
    count.saturating_add(1).min(MAX_STAMP)
}

// A number of late records after one more record, which may be late.
pub(crate) fn late_with(late: u64, is_late: bool) -> u64
    ensures { result ≡ (if is_late then one_more late else late) }
{
    if is_late { one_more(late) } else { late }
}
