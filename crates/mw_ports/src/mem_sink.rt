//! A sink in memory, whose text a contract can see, and which fails at named calls.
ghost use Rattle.std.specs.Prelude.{◌≡◌, ◌≢◌, ◌≤◌, ◌<◌, ◌⊎◌, ◌↔◌, ◌++◌, [], length, min, take, Some, IfOk, OnErr, IsErrOf, Contains};
ghost use Rattle.mw_types.specs.Causes.{Counts, raised};

use crate::sink::{Sink, SinkFault};
use mw_types::CallList;
use std::alloc::Global;
use std::marker::Model;

/// A sink that holds its text in memory.
#[derive(Drop)]
pub struct MemSink {
    text: Vec<u8>,
    most: usize,
    failing: CallList,
    empty: CallList,
    calls: u64,
    faults: u64,
}

impl Model for MemSink {
    ghost use Rattle.std.specs.Prelude.{◌≤◌};
    ghost use Rattle.mw_ports.specs.Fakes.{SinkView};

    ghost Value = { SinkView };

    ghost view = { λ s. record {
      text = s.text.items;
      most = s.most;
      failing = s.failing;
      empty = s.empty;
      calls = s.calls;
      faults = s.faults;
    } };

    ghost invariant = { λ s. 1 ≤ s.most };
}

impl MemSink {
    /// An empty sink that takes at most `most` bytes a call. Its writes of the numbers in
    /// `failing`, from 0, fail, and those in `empty` take nothing, which is a failure too.
    pub fn of(alloc: Global, most: usize, failing: CallList, empty: CallList) -> MemSink
        requires { 1 ≤ most }
        ensures { result ≡ record {
          text = [];
          most = most;
          failing = failing;
          empty = empty;
          calls = 0;
          faults = 0;
        } }
    {
        MemSink {
            text: Vec::new(alloc),
            most,
            failing,
            empty,
            calls: 0,
            faults: 0,
        }
    }

    /// What was written so far.
    pub fn text(&self) -> &[u8]
        ensures { result.now ≡ self.now.text }
    {
        self.text.as_slice()
    }
}

impl Sink for MemSink {
    ghost text = { λ s. Some s.text };

    ghost faults = { λ s. s.faults };

    fn write(&mut self, piece: &[u8]) -> Result<usize, SinkFault>
        ensures failed { IsErrOf result SinkFault.Failed ↔
            (Contains self.old.failing self.old.calls ⊎ Contains self.old.empty self.old.calls) }
        ensures count { IfOk result (λ count. count ≡ min self.old.most (length piece.now)) }
        ensures some { IfOk result (λ count. piece.now ≢ [] → 0 < count) }
        ensures appended { IfOk result (λ count.
            self.new.text ≡ self.old.text ++ take count piece.now) }
        ensures unchanged { OnErr result (self.new.text ≡ self.old.text) }

        // Each call counts, and each fault once.
        ensures counted { self.new.calls ≡ raised self.old.calls }
        ensures faults { Counts (IsErrOf result SinkFault.Failed) self.old.faults self.new.faults }
        ensures most { self.new.most ≡ self.old.most }
        ensures failing { self.new.failing ≡ self.old.failing }
        ensures empty { self.new.empty ≡ self.old.empty }
    {
        let call = self.calls;
        self.calls = self.calls.saturating_add(1);
        if self.failing.as_slice().contains(&call) || self.empty.as_slice().contains(&call) {
            self.faults = self.faults.saturating_add(1);
            return Err(SinkFault::Failed);
        }
        let count = self.most.min(piece.len());
        self.text.extend_from_slice(&piece[..count])?;
        Ok(count)
    }
}
