//! What a pass of a mailbox knows, and the rule of a mailbox.
use crossbeam_queue::protocol::{Lesson, Outcome, Protocol, Split};

/// What a pass knows. No value of it is ever made: it is said in proofs alone.
pub struct Hand {
    /// Whether it is the only pass.
    pub alone: bool,
    /// How many messages it put.
    pub puts: u64,
    /// How many messages it took.
    pub takes: u64,
}

/// As many messages were put as were taken and are left, over all passes.
pub struct Counted;

impl<T> Protocol<T, Hand> for Counted {
    ghost use Rattle.workers.specs.Mailboxes.{AreCounted, first_hand};

    ghost holds = { AreCounted };

    ghost first = { first_hand };
}

/// A message is put. Where there is no room, the pass learns how many there were, of all passes.
pub struct Put;

impl<T> Outcome<T, Hand> for Put {
    ghost use Rattle.std.specs.Prelude.{◌≡◌};
    ghost use Rattle.workers.specs.Mailboxes.{with_put};

    ghost then = { λ v x w. w ≡ with_put v };
}

impl<T> Lesson<T, Hand> for Put {
    ghost use Rattle.std.specs.Prelude.{length};
    ghost use Rattle.workers.specs.Mailboxes.{HasHeld};

    ghost fact = { λ v items. HasHeld v (length items) };
}

/// A message is taken. Where there is none, the pass learns that all that was put was taken.
pub struct Taken;

impl<T> Outcome<T, Hand> for Taken {
    ghost use Rattle.std.specs.Prelude.{◌≡◌};
    ghost use Rattle.workers.specs.Mailboxes.{with_take};

    ghost then = { λ v x w. w ≡ with_take v };
}

impl<T> Lesson<T, Hand> for Taken {
    ghost use Rattle.std.specs.Prelude.{length};
    ghost use Rattle.workers.specs.Mailboxes.{HasHeld};

    ghost fact = { λ v items. HasHeld v (length items) };
}

/// One more pass is made.
pub struct Dealt;

impl Split<Hand> for Dealt {
    ghost use Rattle.workers.specs.Mailboxes.{beside, new_hand};

    ghost left = { beside };

    ghost right = { λ v. new_hand };
}
