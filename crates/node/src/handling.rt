//! What a computation leaves of a record or of a timer.
ghost use Rattle.std.specs.Prelude.{◌≡◌, ◌≤◌, IfOk, Some, option_copied, slice_get};
ghost use Rattle.mw_types.specs.declared.TheConstants.{MAX_STAMP};
ghost use Rattle.computations.specs.Handlers.{OfRecord, OfTimer};
ghost use Rattle.run_history.specs.Legal.{outcome_of};
ghost use Rattle.node.specs.Works.{IsStateThere, IsWorkOf, row_or_fresh};

use computations::{Computation, Context};
use mw_types::{Delivery, Effects, MAX_STAMP, NoMemory, Record, RowName, Timer};
use row_parts::Row;
use run_history::{Case, first_row};
use std::alloc::Global;

/// What a computation leaves of a record that goes to a row, for a caller that has the row and no
/// worker.
pub fn handled<C: Computation>(
    alloc: Global,
    work: &C,
    case: &Case,
    name: &RowName,
    row: &Row,
    item: &Record,
) -> Result<Effects, NoMemory>
    requires work { IsWorkOf case.now.topology (C.does work.now) }
    requires there { IsStateThere case.now.topology name.now.part row.now.state }
    requires stamp { item.now.stamp ≤ MAX_STAMP }
    ensures does { IfOk result (λ effects.
        outcome_of case.now name.now row.now (OfRecord item.now) ≡ Some effects) }
{
    let mut context = Context::for_record(alloc, &name.key, &row.state, item)?;
    match work.on_record(alloc, name.part, &mut context, item) {
        Ok(()) => Ok(context.into_effects()),
        Err(want) => {
            drop(context);
            Err(want)
        }
    }
}

/// What a computation leaves of a delivery in its row, or in a new row where none is there yet.
pub fn left_of_delivery<C: Computation>(
    alloc: Global,
    work: &C,
    case: &Case,
    row: Option<&Row>,
    delivery: &Delivery,
) -> Result<Effects, NoMemory>
    requires work { IsWorkOf case.now.topology (C.does work.now) }
    requires there { let to = delivery.now.to in IsStateThere case.now.topology to.part
        (row_or_fresh case.now.topology to.part (option_copied row)).state }
    requires stamp { delivery.now.item.stamp ≤ MAX_STAMP }
    ensures does { let to = delivery.now.to in
        let row = row_or_fresh case.now.topology to.part (option_copied row.entry) in
        IfOk result (λ effects.
        outcome_of case.now to row (OfRecord delivery.now.item) ≡ Some effects) }
{
    let name = &delivery.to;
    match row {
        Some(row) => handled(alloc, work, case, name, row, &delivery.item),
        None => {
            let fresh = first_row(alloc, case, name.part);
            let left = handled(alloc, work, case, name, &fresh, &delivery.item);
            drop(fresh);
            left
        }
    }
}

/// What a computation leaves of a timer of a row, for a caller that has the row and no worker.
pub fn fired<C: Computation>(
    alloc: Global,
    work: &C,
    case: &Case,
    name: &RowName,
    row: &Row,
    timer: &Timer,
) -> Result<Effects, NoMemory>
    requires work { IsWorkOf case.now.topology (C.does work.now) }
    requires there { IsStateThere case.now.topology name.now.part row.now.state }
    requires first { slice_get row.now.timers 0 ≡ Some timer.now }
    ensures does { IfOk result (λ effects.
        outcome_of case.now name.now row.now (OfTimer timer.now) ≡ Some effects) }
{
    let mut context = Context::for_timer(alloc, &name.key, &row.state, timer)?;
    match work.on_timer(alloc, name.part, &mut context, timer) {
        Ok(()) => Ok(context.into_effects()),
        Err(want) => {
            drop(context);
            Err(want)
        }
    }
}
