//! The kinds of computations, and what a table of them tells.
ghost use Rattle.std.specs.Prelude.{◌≡◌, ◌+◌, ◌-◌, ◌<◌, ◌≤◌, length, slice_get};
ghost use Rattle.mw_types.specs.Kinds.{IsKind};

/// What a computation does.
#[derive(Clone, Copy, PartialEq, Eq)]
pub enum Kind {
    /// Counts the records of each key in windows.
    Count {
        /// The length of a window, in whole microseconds, from 1 to 2^40.
        size: u64,
    },
    /// Tells where a total is far above the ones before it.
    Spike {
        /// With how many totals before it a total is compared, from 1 to 64.
        last: u32,
        /// Above how many times their mean a total is a spike, from 1 to 1,000.
        times: u32,
    },
    /// Produces each record again.
    Pass,
}

/// The parts of a topology by number, injectors first, and the kind of each computation.
pub trait KindTable {
    ghost use Rattle.std.specs.Prelude.{List, ℕ};
    ghost use Rattle.mw_types.specs.declared.kind.Kind.{Kind};

    /// How many parts are injectors.
    ghost injector_count: { Self → ℕ };

    /// The kinds of the computations, in order.
    ghost kinds: { Self → List Kind };

    /// How many parts there are.
    fn parts(&self) -> u32
        ensures { result ≡ injector_count self.now + length (kinds self.now) };

    /// How many parts are injectors.
    fn injectors(&self) -> u32
        ensures { result ≡ injector_count self.now };

    /// The kind of a computation.
    fn kind(&self, part: u32) -> Kind
        requires computation { injector_count self.now ≤ part }
        requires part { part < injector_count self.now + length (kinds self.now) }
        ensures kind { slice_get (kinds self.now) (part - injector_count self.now) ≡ Some result }
        ensures within { IsKind result };
}
