//! Where text is written.
ghost use Rattle.std.specs.Prelude.{◌≡◌, ◌≢◌, ◌≤◌, ◌<◌, ℕ, List, Option, [], length, take, IfOk, OnOk, OnErr};
ghost use Rattle.mw_types.specs.Causes.{HasCause};
ghost use Rattle.std.specs.Io.KnownBytes.{append_known};
ghost use Rattle.mw_ports.specs.Sinks.{AppendsPrefix};

use mw_types::NoMemory;
use std::alloc::AllocError;

/// Why a piece was not written.
#[derive(Clone, Copy, PartialEq, Eq)]
pub enum SinkFault {
    /// The outside world failed.
    Failed,
    /// Memory ran out.
    NoMemory,
}

impl From<NoMemory> for SinkFault {
    ghost use Rattle.std.specs.Prelude.{◌≡◌};
    ghost use Rattle.mw_ports.specs.declared.sink.SinkFault.TheVariants as faults;

    ghost from_gives = { λ _ fault. fault ≡ faults.NoMemory };

    fn from(_want: NoMemory) -> SinkFault {
        SinkFault::NoMemory
    }
}

impl From<AllocError> for SinkFault {
    ghost use Rattle.std.specs.Prelude.{◌≡◌};
    ghost use Rattle.mw_ports.specs.declared.sink.SinkFault.TheVariants as faults;

    ghost from_gives = { λ _ fault. fault ≡ faults.NoMemory };

    fn from(_want: AllocError) -> SinkFault {
        SinkFault::NoMemory
    }
}

/// Where bytes are appended.
pub trait Sink: Drop {
    /// What was written so far, where a contract can see it.
    ghost text: { Self → Option (List ℕ) };

    /// How often the outside world failed.
    ghost faults: { Self → ℕ };

    /// Appends a beginning of the piece, of at least one byte if it has any, and answers its length.
    fn write(&mut self, piece: &[u8]) -> Result<usize, SinkFault>
        ensures within { IfOk result (λ count. count ≤ length piece.now) }
        ensures some { IfOk result (λ count. piece.now ≢ [] → 0 < count) }
        ensures appended { IfOk result (λ count.
            text self.new ≡ append_known (text self.old) (take count piece.now)) }
        ensures unchanged { OnErr result (text self.new ≡ text self.old) }
        ensures cause { HasCause (faults self.old) (faults self.new) result SinkFault.Failed };
}

/// Appends the whole piece, by as many writes as that takes.
pub fn write_all<O: Sink>(out: &mut O, piece: &[u8]) -> Result<(), SinkFault>
    ensures whole { OnOk result (O.text out.new ≡ append_known (O.text out.old) piece.now) }
    ensures part { OnErr result (AppendsPrefix piece.now (O.text out.old) (O.text out.new)) }
    ensures cause { HasCause (O.faults out.old) (O.faults out.new) result SinkFault.Failed }
{
    let mut done = 0;
    while done < piece.len() {
        done += out.write(&piece[done..])?;
    }
    Ok(())
}
