//! Where a worker passes in its turn, so that a test can hold it there.

/// What a worker comes to in its turn of work.
#[derive(Clone, Copy, PartialEq, Eq)]
pub enum Point {
    /// Its turn begins.
    Begin,
    /// A work is prepared, and is committed next.
    BeforeCommit,
    /// That work was committed.
    AfterCommit,
    /// Its turn ends, also where a fault ends it.
    End,
}

/// What each worker passes at each point. It has no meaning: a gate lets tests hold a worker, and no contract
/// says anything of it.
pub trait Gate {
    /// Lets a worker pass a point, once it returns.
    fn at(&self, worker: u32, point: Point);
}

/// A gate that holds nobody.
#[derive(Clone, Copy, PartialEq, Eq)]
pub struct OpenGate;

impl Gate for OpenGate {
    fn at(&self, _worker: u32, _point: Point) {}
}
