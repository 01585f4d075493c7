//! A world in which the steps of a script are done for real: sixteen workers over one book, and the
//! messages between them.
ghost use Rattle.std.specs.Prelude.{◌≡◌, [], length, replicate, IfErr, IfOk};
ghost use Rattle.run_history.specs.Cases.{intervals_of};
ghost use Rattle.book.specs.Books.{core_of};
ghost use Rattle.book.specs.Lawful.{IsLawful};
ghost use Rattle.node.specs.Works.{IsWorkOf};
ghost use Rattle.world.specs.scripts.Worlds.{empty_world, world_on};
ghost use Rattle.world.specs.WorldDrains.{AreNew};
ghost use Rattle.world.specs.scripts.WorldStates.{IsFolding, world_of};

use crate::scripts::flights::Flight;
use crate::scripts::relays::{Left, Relays, new_relays};
use book::{Book, NoNote};
use computations::Computation;
use mw_types::NoMemory;
use node::Node;
use row_keeper::Keeper;
use std::alloc::Global;
use std::marker::Model;
use topology::Routes;

/// Sixteen workers over one book, the messages between them, and the relays that these pass.
#[derive(Drop)]
pub struct World<'a, K: Keeper, C: Computation + Drop> {
    pub(crate) book: Book<'a, K>,
    pub(crate) work: C,
    pub(crate) nodes: Vec<Node<NoNote>>,
    pub(crate) flight: Flight,
    pub(crate) left: Left,
    pub(crate) relays: Relays,
    pub(crate) routes: Routes,
}

impl<'a, K: Keeper, C: Computation + Drop> Model for World<'a, K, C> {
    ghost use Rattle.node.specs.Works.{IsWorkOf};
    ghost use Rattle.world.specs.scripts.Standing.{IsWorld};
    ghost use Rattle.world.specs.scripts.WorldStates.{WorldState, state_in};

    ghost Value = { WorldState };

    ghost view = { state_in };

    ghost invariant = { λ w. IsWorld (state_in w)
        × IsWorkOf w.book.case.topology (C.does w.work) };
}

/// Want of memory, where a world was to start: what was handed in is handed back, but for the routes.
#[derive(Drop)]
pub struct WorldRefusal<'a, K: Keeper, C: Computation + Drop> {
    /// The book.
    pub book: Book<'a, K>,
    /// What the computations do.
    pub work: C,
}

impl<'a, K: Keeper, C: Computation + Drop> World<'a, K, C> {
    /// A world over a book: no worker has anything, no message is in flight, and no relay holds an id.
    /// There is a relay for each weak computation that folding left out. It is refused only for lack of
    /// memory.
    pub fn start(
        alloc: Global,
        book: Book<'a, K>,
        work: C,
        routes: Routes,
    ) -> Result<World<'a, K, C>, WorldRefusal<'a, K, C>>
        requires work { IsWorkOf book.case.topology (C.does work) }
        requires folding { IsFolding book.case.topology routes }

        ensures routes { IfOk result (λ world. world.routes ≡ routes) }
        ensures book { IfOk result (λ world. world.book ≡ book.entry) }
        ensures begun { IfOk result (λ world.
            world_of world ≡ world_on routes book.entry.history book.entry.marks) }

        // Where nothing was written yet it is the world in which scripts begin.
        ensures empty { IfOk result (λ world. let shape = book.entry.case.topology in
            book.entry.history ≡ [] →
            book.entry.marks ≡ replicate (length (intervals_of shape)) 0 →
            world_of world ≡ empty_world routes shape) }

        ensures kept_book { IfErr result (λ refusal. refusal.book ≡ book.entry) }
        ensures kept_work { IfErr result (λ refusal. refusal.work ≡ work) }
    {
        match workers_and_relays(alloc, routes.weaks()) {
            Ok((nodes, relays)) => Ok(World {
                book,
                work,
                nodes,
                flight: Vec::new(alloc),
                left: Vec::new(alloc),
                relays,
                routes,
            }),
            Err(_) => {
                drop(routes);
                Err(WorldRefusal { book, work })
            }
        }
    }

    /// The book over which the workers stand.
    pub fn book(&self) -> &Book<'a, K>
        ensures book { result.now ≡ self.now.book }
    {
        &self.book
    }

    /// How many relays there are, which a reader of steps for this world asks.
    pub fn weaks(&self) -> u32
        ensures weaks { result ≡ self.now.routes.weaks }
    {
        self.routes.weaks()
    }

    /// What always holds of the book. It does nothing when it runs.
    pub fn sound(&self)
        ensures lawful { IsLawful self.now.book.case (core_of self.now.book) }
    {
        self.book().history();
    }

    /// The book, at the end.
    pub fn into_book(self) -> Book<'a, K>
        ensures book { result ≡ self.entry.book }
    {
        let World {
            book,
            work: _,
            nodes: _,
            flight: _,
            left: _,
            relays: _,
            routes: _,
        } = self;
        book
    }
}

// Sixteen workers that have nothing, and so many relays that hold no id.
fn workers_and_relays(alloc: Global, weaks: u32) -> Result<(Vec<Node<NoNote>>, Relays), NoMemory>
    ensures workers { IfOk result (λ both. AreNew 16 both.0.items) }
    ensures relays { IfOk result (λ both. both.1.items ≡ replicate weaks []) }
{
    let nodes = sixteen(alloc)?;
    let relays = new_relays(alloc, weaks)?;
    Ok((nodes, relays))
}

// Sixteen workers that have nothing, by their numbers.
pub(crate) fn sixteen(alloc: Global) -> Result<Vec<Node<NoNote>>, NoMemory>
    ensures { IfOk result (λ nodes. AreNew 16 nodes.items) }
{
    let mut nodes = Vec::new(alloc);
    for worker in 0..16 {
        nodes.push(Node::new(alloc, worker))?;
    }
    Ok(nodes)
}
