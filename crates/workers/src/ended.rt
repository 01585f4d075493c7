//! How rounds end.
use book::Book;
use node::NodeFault;
use row_keeper::Keeper;

/// The book after all rounds, and why they ended before their time.
#[derive(Drop)]
pub struct Rounds<'a, K: Keeper> {
    /// The book.
    pub book: Book<'a, K>,
    /// The fault of the first worker by number that had one, in the first round in which one had, or none where all
    /// rounds were done.
    pub fault: Option<NodeFault>,
}
