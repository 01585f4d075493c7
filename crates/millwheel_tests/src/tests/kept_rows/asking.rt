//! What the database itself answers over a file. One function has a connection of a file, and no other source, since
//! each function that calls one carries what its clauses tell of its store.
use crate::tests::made;
use sqlite::{Alter, Connection, Row};
use std::process::Abort;

/// A row of a file: its part, its key and its bytes.
pub type Told = (u32, &'static [u8], &'static [u8]);

// What the database answers to a query, after these statements.
fn asked<S: Alter + Drop>(
    rt: &impl Abort,
    connection: &mut Connection<S>,
    statements: &str,
    query: &str,
) -> Vec<Row> {
    made(rt, connection.execute_batch(statements));
    made(rt, connection.query_all(query, &[]))
}

// The same on a file.
fn answer(
    host: &HostRuntime,
    rt: &impl Abort,
    name: &str,
    statements: &str,
    query: &str,
) -> Vec<Row> {
    let mut connection = made(rt, Connection::open(host, name));
    let rows = asked(rt, &mut connection, statements, query);
    drop(connection);
    rows
}

/// Has the database do these statements on a file, which has a table `rows` then.
pub(super) fn does(host: &HostRuntime, rt: &impl Abort, name: &str, statements: &str) {
    drop(answer(host, rt, name, statements, "SELECT part FROM rows"));
}

/// How many rows a file has.
pub(super) fn count(host: &HostRuntime, rt: &impl Abort, name: &str) -> usize {
    let rows = answer(host, rt, name, "", "SELECT part FROM rows");
    let count = rows.len();
    drop(rows);
    count
}

/// Whether a file has these rows, in their order, and no others.
pub(super) fn has_rows(host: &HostRuntime, rt: &impl Abort, name: &str, want: &[Told]) -> bool {
    let query = "SELECT part, key, bytes FROM rows ORDER BY part, key";
    let rows = answer(host, rt, name, "", query);
    let are_rows = are_rows(rt, rows.as_slice(), want);
    drop(rows);
    are_rows
}

// Whether these are the rows.
fn are_rows(rt: &impl Abort, rows: &[Row], want: &[Told]) -> bool {
    let mut are = rows.len() == want.len();
    for (at, row) in rows.iter().enumerate() {
        are = are && at < want.len() && is_row(rt, row, &want[at]);
    }
    are
}

// Whether a row is of this part, with this key and these bytes.
fn is_row(rt: &impl Abort, row: &Row, told: &Told) -> bool {
    let (part, key, bytes) = *told;
    let is_part = made(rt, row.get::<u32>(0)) == part;
    is_part && is_column(rt, row, 1, key) && is_column(rt, row, 2, bytes)
}

// Whether a column of a row has these bytes.
fn is_column(rt: &impl Abort, row: &Row, at: usize, want: &[u8]) -> bool {
    made(rt, row.get::<Vec<u8>>(at)).as_slice() == want
}
