//! A mailbox with one place, and one pass of it.
ghost use Rattle.topology.specs.Samples.{one_count};
ghost use Rattle.crossbeam_queue.specs.Passes.{IsPassOf};
ghost use Rattle.outbox.specs.Messages.{IsAddressed};
ghost use Rattle.node.specs.Received.{outgoing_of};

use super::turns_of_work::mailbox;
use crate::tests::must;
use book::NoNote;
use mw_types::{Key, RecordId, RowName};
use node::{Message, Receipt};
use std::alloc::Global;
use std::process::Abort;
use std::sync::Wait;
use workers::{MailPass, Mailbox, Office};

// The office of an injector and a count, whose messages have no note.
struct Example;

impl Office for Example {
    ghost use Rattle.std.specs.Prelude.{[]};
    ghost use Rattle.topology.specs.Samples.{one_count};

    ghost book = { [] };

    ghost shape = { one_count 60 };
}

type Box = Mailbox<NoNote, Example>;

type Pass = MailPass<NoNote, Example>;

// Word that the record of this id was handled, for the injector.
fn word(alloc: Global, commit: u64) -> Message<NoNote>
    ensures addressed { IsAddressed (one_count 60) (outgoing_of result) }
{
    let receipt = Receipt {
        to: RowName {
            part: 0,
            key: Key::none(alloc),
        },
        id: RecordId { commit, index: 0 },
        note: NoNote,
    };
    Message::Ack { receipt }
}

// The commit number in a word.
fn number_in(message: Message<NoNote>) -> u64 {
    match message {
        Message::Ack { receipt } => receipt.id.commit,
        Message::Deliver { parcel: _ } => 0,
    }
}

// What a mailbox with one place answers to two words and to two tries to take one: whether it took each, and
// the numbers that it gave, 0 for none.
fn answers<R: Wait + Abort>(rt: &R, alloc: Global) -> [u64; 4] {
    let (mailbox, mut pass) = mailbox::<NoNote, Example>(rt, alloc, 1);
    let first = put(rt, &mailbox, &mut pass, word(alloc, 7));
    let second = put(rt, &mailbox, &mut pass, word(alloc, 8));
    let third = taken(rt, &mailbox, &mut pass);
    let fourth = taken(rt, &mailbox, &mut pass);
    drop(pass);
    drop(mailbox);
    [first, second, third, fourth]
}

// The number of the word that comes back, 0 where it is put.
fn put<R: Wait>(rt: &R, mailbox: &Box, pass: &mut Pass, message: Message<NoNote>) -> u64
    requires pass { IsPassOf mailbox.now.line pass.old.pass }
    requires addressed { IsAddressed (one_count 60) (outgoing_of message) }
    ensures pass { IsPassOf mailbox.now.line pass.new.pass }
{
    match mailbox.push(rt, pass, message) {
        Ok(()) => 0,
        Err(full) => number_in(full.message),
    }
}

// The number of the word that is taken, 0 where there is none.
fn taken<R: Wait>(rt: &R, mailbox: &Box, pass: &mut Pass) -> u64
    requires pass { IsPassOf mailbox.now.line pass.old.pass }
    ensures pass { IsPassOf mailbox.now.line pass.new.pass }
{
    match mailbox.pop(rt, pass) {
        Some(message) => number_in(message),
        None => 0,
    }
}

#[test]
fn mailbox_of_one(rt: HostRuntime) {
    must(
        &rt,
        answers(&rt, rt.alloc()) == [0, 8, 7, 0],
        "what it answers",
    );
}
