//! How much a worker has to send.
ghost use Rattle.std.specs.Prelude.{◌≡◌, length};

use crate::node::Node;
use book::Seen;

impl<N: Seen> Node<N> {
    /// How many messages it has to send, for a caller that makes room for all of them first, or
    /// that sends those and no later ones.
    pub fn unsent(&self) -> usize
        ensures unsent { result ≡ length self.now.outbox }
    {
        self.outbox.len()
    }
}
