//! How a call ends by its words or its keeper, when the run itself is not begun or is over.
ghost use Rattle.std.specs.Prelude.{◌≡◌, if◌then◌else◌, IfErr, IsOk};
ghost use Rattle.millwheel_cli.specs.Closing.{of_keeper, of_unheard};
ghost use Rattle.task_runs.specs.Messages.{is_ok};

use mw_ports::WordsFault;
use row_keeper::KeeperFault;
use task_runs::Status;

/// The status where the words of the call were not read, so that no run was begun.
pub fn unheard(fault: WordsFault) -> Status
    ensures { result ≡ of_unheard fault }
{
    match fault {
        WordsFault::NoMemory => Status::NoMemory,
        WordsFault::NoText => Status::Usage,
    }
}

/// The status where a keeper could not be opened, so that no run was begun.
pub fn unopened(fault: KeeperFault) -> Status
    ensures { result ≡ of_keeper fault }
{
    match fault {
        KeeperFault::Failed => Status::KeeperFault,
        KeeperFault::NoMemory => Status::NoMemory,
    }
}

/// The status of a run whose keeper was closed after it: one that went well did not, where the closing
/// failed, since its rows may not be kept.
pub fn after_closing(status: Status, closing: Result<(), KeeperFault>) -> Status
    ensures kept { IsOk closing → result ≡ status }
    ensures lost { IfErr closing (λ fault.
        result ≡ (if is_ok status then of_keeper fault else status)) }
{
    match closing {
        Ok(()) => status,
        Err(fault) => {
            if status.is_ok() {
                unopened(fault)
            } else {
                status
            }
        }
    }
}
