//! What the process says of a status, and the number with which it ends.
ghost use Rattle.std.specs.Prelude.{◌≡◌, IfOk, OnErr, OnOk, string_bytes};
ghost use Rattle.std.specs.Io.KnownBytes.{append_known};
ghost use Rattle.mw_types.specs.Causes.{HasCause};
ghost use Rattle.mw_ports.specs.Sinks.{AppendsPrefix};
ghost use Rattle.task_runs.specs.Numbers.{number_of};
ghost use Rattle.task_runs.specs.Messages.{told_line};

use mw_ports::{Sink, SinkFault, write_all};
use std::alloc::{AllocError, Global};
use task_runs::Status;

// The line that says how a call ended.
fn told_line(alloc: Global, status: &Status) -> Result<String, AllocError>
    ensures { IfOk result (λ line. string_bytes line ≡ told_line status.now) }
{
    if status.is_ok() {
        Ok(String::new(alloc))
    } else {
        format!(in alloc; "millwheel: {status}\n")
    }
}

/// Says how a call ended, by one line on standard error, and by nothing with Ok.
pub fn say<E: Sink>(alloc: Global, status: &Status, err: &mut E) -> Result<(), SinkFault>
    ensures whole { OnOk result
        (E.text err.new ≡ append_known (E.text err.old) (told_line status.now)) }
    ensures part { OnErr result
        (AppendsPrefix (told_line status.now) (E.text err.old) (E.text err.new)) }
    ensures cause { HasCause (E.faults err.old) (E.faults err.new) result SinkFault.Failed }
{
    let line = told_line(alloc, status)?;
    write_all(err, line.as_bytes())
}

/// Says how a call ended, and answers the number with which the process ends: the same number where
/// standard error can't be written, since nobody is left to be told.
pub fn tell<E: Sink>(alloc: Global, status: &Status, err: &mut E) -> u8
    ensures number { result ≡ number_of status.now }
    ensures told { AppendsPrefix (told_line status.now) (E.text err.old) (E.text err.new) }
{
    let _said = say(alloc, status, err);
    status.number()
}
