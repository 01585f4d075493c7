//! A worker over the desk of a book of its own, over desks of a shared book, and two over the desks of
//! two seats: the same answers at each desk, a worker that another has overtaken, and a keeper that fails under a
//! worker's turn. And what workers in threads stand on: a mailbox with one place, and plans that are read.
mod acts;
mod busy;
mod closing;
mod crossing;
mod example;
mod failing;
mod mailbox_of_one;
mod marks;
mod messages;
mod overtaken;
mod plan_texts;
mod plays;
mod same_answers;
mod seats;
mod threads;
mod turns_of_work;
mod two_workers;
