//! How many messages a turn of work may take.
ghost use Rattle.std.specs.Prelude.{◌≡◌, ◌≤◌, ◌+◌, min};

use std::marker::Model;

// Of each mailbox at least so many may be taken.
const FIRST: u32 = 64;

// Of one mailbox no more.
const MOST: u32 = 1024;

// Of all mailboxes no more: the first of each, where there are as many as there may be intervals.
const ALL: u32 = 3904;

// How many messages may still be taken: for each mailbox that is still to come its first ones are set aside,
// so that no mailbox goes without for what another has, and what is left may be taken of any.
#[derive(Drop)]
pub(crate) struct Budget {
    to_come: u32,
    left: u32,
}

impl Model for Budget {
    ghost use Rattle.std.specs.Prelude.{◌+◌, ◌*◌, ◌≤◌, ℕ};

    ghost Value = { ℕ };

    ghost view = { λ b. 64 * b.to_come + b.left };

    ghost invariant = { λ b. 64 * b.to_come + b.left ≤ 3904 };
}

impl Budget {
    // What may be taken of so many mailboxes.
    pub(crate) fn of(mailboxes: u32) -> Budget
        requires few { mailboxes ≤ 61 }
        ensures all { result ≡ 3904 }
    {
        Budget {
            to_come: mailboxes,
            left: ALL - FIRST * mailboxes,
        }
    }

    // Takes out what may be taken of the next mailbox.
    pub(crate) fn take_out(&mut self) -> u32
        ensures out { self.old ≡ self.new + result }
        ensures most { result ≤ 1024 }
        ensures first { min 64 self.old ≤ result }
    {
        let next = self.to_come.min(1);
        let more = self.left.min(MOST - FIRST * next);
        self.to_come -= next;
        self.left -= more;
        FIRST * next + more
    }

    // Puts back what was not taken.
    pub(crate) fn put_back(&mut self, rest: u32)
        requires room { self.old + rest ≤ 3904 }
        ensures back { self.new ≡ self.old + rest }
    {
        self.left += rest;
    }
}
