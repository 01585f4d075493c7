//! The pass, which produces each record again.
ghost use Rattle.std.specs.Prelude.{◌≡◌, ◌≤◌, OnOk};
ghost use Rattle.mw_types.specs.declared.kind.Kind.TheVariants as kinds;
ghost use Rattle.mw_types.specs.Bounds.{IsWithin};
ghost use Rattle.computations.specs.Handlers.{effects_of};
ghost use Rattle.computations.specs.Handlers.{OfRecord};
ghost use Rattle.computations.specs.Handlings.{begun_by, ended_with};

use crate::context::Context;
use crate::tally::late_with;
use mw_types::{MAX_STAMP, NoMemory, Record, State};
use std::alloc::Global;

// The handler of records of a pass.
pub(crate) fn on_record(alloc: Global, context: &mut Context, item: &Record) -> Result<(), NoMemory>
    requires made { context.old ≡ begun_by context.old.key context.old.state (OfRecord item.now) }
    requires within { IsWithin context.old.state }
    requires in_time { item.now.stamp ≤ MAX_STAMP }
    ensures effects { let kind = kinds.Pass in
        let o = effects_of kind context.old.key context.old.state (OfRecord item.now) in
        OnOk result (context.new ≡ ended_with context.old o) }
    ensures within { OnOk result (IsWithin context.new.state) }
{
    let State::Pass { late } = context.state_mut() else {
        return Ok(());
    };
    *late = late_with(*late, item.late);
    context.produce(alloc, &item.key, item.stamp, item.value)
}
