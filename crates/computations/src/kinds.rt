//! The computations of a topology, by the kinds of its parts.
ghost use Rattle.std.specs.Prelude.{◌≡◌, All, IfOk, IsSome};
ghost use Rattle.mw_types.specs.Kinds.{IsKind};

use crate::computation::Computation;
use crate::context::Context;
use crate::{count, pass, spike};
use mw_types::{Kind, KindTable, NoMemory, Record, Seq, Timer};
use std::alloc::Global;
use std::marker::Model;

/// The computations that the kinds of a table name.
#[derive(Drop)]
pub struct Kinds {
    injectors: u32,
    kinds: Seq<Kind>,
}

impl Model for Kinds {
    ghost use Rattle.std.specs.Prelude.{All};
    ghost use Rattle.mw_types.specs.Kinds.{IsKind};
    ghost use Rattle.computations.specs.Parts.{Parts};

    ghost Value = { Parts };

    ghost view = { λ k. record { injectors = k.injectors; kinds = k.kinds } };

    ghost invariant = { λ k. All IsKind k.kinds };
}

impl Kinds {
    ghost use Rattle.computations.specs.Parts.{kind_at};

    /// The computations of a table.
    pub fn of<T: KindTable>(alloc: Global, table: &T) -> Result<Kinds, NoMemory>
        ensures injectors { IfOk result (λ kinds. kinds.injectors ≡ T.injector_count table.now) }
        ensures kinds { IfOk result (λ kinds. kinds.kinds ≡ T.kinds table.now) }
        ensures within { IfOk result (λ kinds. All IsKind kinds.kinds) }
    {
        let injectors = table.injectors();
        let mut kinds = Seq::new(alloc);
        for part in injectors..table.parts() {
            kinds.push(table.kind(part))?;
        }
        Ok(Kinds { injectors, kinds })
    }

    // The kind of a computation.
    fn kind(&self, part: u32) -> Kind
        requires { IsSome (kind_at self.now part) }
        ensures kind { kind_at self.now part ≡ Some result }
        ensures within { IsKind result }
    {
        let at = part - self.injectors;
        match self.kinds.get(at as usize) {
            Some(kind) => *kind,
            None => Kind::Pass,
        }
    }
}

impl Computation for Kinds {
    ghost use Rattle.computations.specs.Parts.{part_doings};
    ghost use Rattle.computations.specs.HandlerLaws.{part-lawful, part-sets_none};

    ghost does = { part_doings };

    fn on_record(
        &self,
        alloc: Global,
        part: u32,
        context: &mut Context,
        item: &Record,
    ) -> Result<(), NoMemory> {
        match self.kind(part) {
            Kind::Count { size } => count::on_record(context, size, item),
            Kind::Spike { .. } => spike::on_record(context, item),
            Kind::Pass => pass::on_record(alloc, context, item),
        }
    }

    fn on_timer(
        &self,
        alloc: Global,
        part: u32,
        context: &mut Context,
        timer: &Timer,
    ) -> Result<(), NoMemory> {
        match self.kind(part) {
            Kind::Count { .. } => count::on_timer(alloc, context, timer),
            Kind::Spike { last, times } => spike::on_timer(alloc, context, last, times, timer),
            Kind::Pass => Ok(()),
        }
    }

    ghost lawful = { part-lawful };

    ghost sets_none = { part-sets_none };
}
