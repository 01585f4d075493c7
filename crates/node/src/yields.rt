//! What a refusal by the desk leaves of a node.
ghost use Rattle.std.specs.Prelude.{◌≡◌, IfSome};
ghost use Rattle.node.specs.Steps.{HasLetGo, HasYielded, IsWorkThere, answered, work_beside};

use crate::node::Node;
use crate::outcome::{NodeFault, Outcome};
use crate::work::{is_prepared_in, unprepared};
use book::{DeskRefusal, Seen};
use run_history::Case;

impl<N: Seen> Node<N> {
    // Gives up what is held under a lease that was overtaken, and answers what the desk did.
    pub(crate) fn yield_to(
        &mut self,
        case: &Case,
        interval: u32,
        why: DeskRefusal,
    ) -> Result<Outcome, NodeFault>
        requires there { IfSome self.old.prepared (IsWorkThere case.now.topology) }
        ensures answer { result ≡ answered why }
        ensures left { HasYielded case.now.topology interval why self.old self.new }
    {
        match why {
            DeskRefusal::Stale { newer } => Ok(self.let_go(case, interval, newer)),
            other => refused(other),
        }
    }

    // Lets go of what is held of an interval, and of a work that is prepared there.
    fn let_go(&mut self, case: &Case, interval: u32, newer: u64) -> Outcome
        requires there { IfSome self.old.prepared (IsWorkThere case.now.topology) }
        ensures answer { result ≡ Outcome.Stale newer }
        ensures left { HasLetGo case.now.topology interval self.old self.new }
    {
        self.held.drop_lease(interval);
        self.unprepare(case, interval);
        Outcome::Stale { newer }
    }

    // Lets go of a work that is prepared in an interval.
    pub(crate) fn unprepare(&mut self, case: &Case, interval: u32)
        requires there { IfSome self.old.prepared (IsWorkThere case.now.topology) }
        ensures left { self.new ≡ record self.old {
          prepared = work_beside case.now.topology interval self.old.prepared;
        } }
    {
        if is_prepared_in(case, interval, &self.prepared) {
            unprepared(&mut self.prepared);
        }
    }
}

// What a refusal of a desk is to a node.
pub(crate) fn refused(why: DeskRefusal) -> Result<Outcome, NodeFault>
    ensures { result ≡ answered why }
{
    match why {
        DeskRefusal::Busy { found } => Ok(Outcome::Busy { found }),
        DeskRefusal::Stale { newer } => Ok(Outcome::Stale { newer }),
        DeskRefusal::HistoryFull => Err(NodeFault::HistoryFull),
        DeskRefusal::KeeperFault => Err(NodeFault::KeeperFault),
        DeskRefusal::RowDamaged { name, bytes } => Err(NodeFault::RowDamaged { name, bytes }),
        DeskRefusal::NoMemory => Err(NodeFault::NoMemory),
    }
}
