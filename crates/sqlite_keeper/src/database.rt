//! The database of a keeper: its table, its statements and its transactions.
//!
//! Each call of the database stands in a function of its own and promises nothing: what a file holds can't
//! be said here, and the clauses of several calls together would be carried into every proof. All is over any
//! store, since the proof of each function that names the store of a file sees through all that this store is;
//! `in_file` has the few that do.

use crate::fault::fault_of;
use key_intervals::Bounds;
use mw_types::RowName;
use row_keeper::KeeperFault;
use sqlite::{Alter, Connection, Error, Row, Statement, params};
use std::alloc::Global;

// The one table. Keys are blobs, since blobs stand in the order of their bytes.
const TABLE: &str = "CREATE TABLE IF NOT EXISTS rows (part INTEGER NOT NULL, key BLOB NOT NULL, \
    bytes BLOB NOT NULL, PRIMARY KEY (part, key)) STRICT";

// Sets the bytes of a row, which may be new.
const PUT: &str = "INSERT INTO rows (part, key, bytes) VALUES (?1, ?2, ?3) \
    ON CONFLICT (part, key) DO UPDATE SET bytes = excluded.bytes";

// The rows of a part from one key on, and below another where there is one.
const RANGE: &str = "SELECT part, key, bytes FROM rows \
    WHERE part = ?1 AND key >= ?2 AND (?3 IS NULL OR key < ?3) ORDER BY part, key";

// The row with the least name.
const FIRST: &str = "SELECT part, key, bytes FROM rows ORDER BY part, key LIMIT 1";

// How many puts are one transaction. A commit waits for the disk, so that a transaction a put would make
// a run as slow as the disk.
const PUTS: u32 = 250;

// The statements on the table.
#[derive(Drop)]
struct Statements {
    put: Statement,
    range: Statement,
    first: Statement,
}

/// What a database is asked.
#[derive(Drop)]
pub(crate) enum Ask<'a> {
    /// To set the bytes of a row. So many of these are one transaction, and where one of them fails so that
    /// all are undone, each later call fails. The answer has no row.
    Put {
        /// The row's name.
        name: &'a RowName,
        /// The bytes.
        bytes: &'a [u8],
    },
    /// For the rows of an interval.
    Range {
        /// The interval.
        bounds: &'a Bounds,
    },
    /// For the row with the least name: the answer has one row or none.
    First,
}

/// A connection to a database with the table, and the statements on it.
#[derive(Drop)]
pub(crate) struct Database<S: Alter + Drop> {
    connection: Connection<S>,
    statements: Statements,
    // How many puts are not committed yet.
    waiting: u32,
    // Whether puts that were answered are undone, since a transaction failed.
    undone: bool,
}

impl<S: Alter + Drop> Database<S> {
    /// Takes over a connection, and makes the table where there is none.
    pub(crate) fn over(connection: Connection<S>) -> Result<Database<S>, Error> {
        let mut connection = connection;
        match all_prepared(&mut connection) {
            Ok(statements) => Ok(Database {
                connection,
                statements,
                waiting: 0,
                undone: false,
            }),
            Err(error) => {
                drop(connection);
                Err(error)
            }
        }
    }

    /// Does what is asked.
    pub(crate) fn answer(&mut self, alloc: Global, ask: &Ask<'_>) -> Result<Vec<Row>, KeeperFault> {
        self.standing()?;
        match ask {
            Ask::Put { name, bytes } => {
                self.put(name, bytes)?;
                Ok(Vec::new(alloc))
            }
            Ask::Range { bounds } => self.range(bounds),
            Ask::First => self.first(),
        }
    }

    /// Commits what waits for it, and gives the connection back.
    pub(crate) fn ended(self) -> Result<Connection<S>, KeeperFault> {
        let mut database = self;
        match database.commit_rest() {
            Ok(()) => Ok(connection_of(database)),
            Err(fault) => {
                drop(database);
                Err(fault)
            }
        }
    }

    // Sets the bytes of a row.
    fn put(&mut self, name: &RowName, bytes: &[u8]) -> Result<(), KeeperFault> {
        self.begin()?;
        if let Err(error) = self.set(name, bytes) {
            self.undone = self.waiting > 0 && !self.is_open();
            return Err(fault_of(error));
        }
        self.waiting = self.waiting.saturating_add(1);
        if self.waiting >= PUTS {
            self.commit()?;
        }
        Ok(())
    }

    // The rows of an interval.
    fn range(&mut self, bounds: &Bounds) -> Result<Vec<Row>, KeeperFault> {
        match self.read_range(bounds) {
            Ok(rows) => Ok(rows),
            Err(error) => Err(fault_of(error)),
        }
    }

    // The row with the least name.
    fn first(&mut self) -> Result<Vec<Row>, KeeperFault> {
        match self.statements.first.query_all(&mut self.connection, &[]) {
            Ok(rows) => Ok(rows),
            Err(error) => Err(fault_of(error)),
        }
    }

    // Commits what waits for it.
    fn commit_rest(&mut self) -> Result<(), KeeperFault> {
        self.standing()?;
        if self.waiting > 0 {
            self.commit()?;
        }
        Ok(())
    }

    // Fails where puts that were answered are undone.
    fn standing(&self) -> Result<(), KeeperFault> {
        if self.undone {
            Err(KeeperFault::Failed)
        } else {
            Ok(())
        }
    }

    // Begins a transaction where none is open.
    fn begin(&mut self) -> Result<(), KeeperFault> {
        if self.is_open() {
            return Ok(());
        }
        self.run("BEGIN")
    }

    // Commits the puts that wait for it. They are undone where that fails.
    fn commit(&mut self) -> Result<(), KeeperFault> {
        let done = self.run("COMMIT");
        match &done {
            Ok(()) => self.waiting = 0,
            Err(_) => self.undone = true,
        }
        done
    }

    // Whether a transaction is open.
    fn is_open(&self) -> bool {
        !self.connection.is_autocommit()
    }

    // Runs a statement that has no parameter and answers no row.
    fn run(&mut self, sql: &str) -> Result<(), KeeperFault> {
        match self.connection.execute(sql, &[]) {
            Ok(_) => Ok(()),
            Err(error) => Err(fault_of(error)),
        }
    }

    // Sets the bytes of a row, in the open transaction.
    fn set(&mut self, name: &RowName, bytes: &[u8]) -> Result<(), Error> {
        let key = name.key.text().as_bytes();
        self.statements
            .put
            .execute(&mut self.connection, params![name.part, key, bytes])?;
        Ok(())
    }

    // The rows of an interval, as the database answers.
    fn read_range(&mut self, bounds: &Bounds) -> Result<Vec<Row>, Error> {
        let from = bounds.from.text().as_bytes();
        let to = match &bounds.to {
            Some(key) => Some(key.text().as_bytes()),
            None => None,
        };
        self.statements
            .range
            .query_all(&mut self.connection, params![bounds.part, from, to])
    }
}

// The connection of a database that is given up.
fn connection_of<S: Alter + Drop>(database: Database<S>) -> Connection<S> {
    let Database {
        connection,
        statements,
        waiting: _,
        undone: _,
    } = database;
    drop(statements);
    connection
}

// Makes the table where there is none, and prepares the statements.
fn all_prepared<S: Alter + Drop>(connection: &mut Connection<S>) -> Result<Statements, Error> {
    connection.execute_batch(TABLE)?;
    let put = prepared(connection, PUT)?;
    let range = match prepared(connection, RANGE) {
        Ok(range) => range,
        Err(error) => {
            drop(put);
            return Err(error);
        }
    };
    match prepared(connection, FIRST) {
        Ok(first) => Ok(Statements { put, range, first }),
        Err(error) => {
            drop(put);
            drop(range);
            Err(error)
        }
    }
}

// Prepares one statement. It is refused where the table has other columns or another key.
fn prepared<S: Alter + Drop>(
    connection: &mut Connection<S>,
    sql: &str,
) -> Result<Statement, Error> {
    connection.prepare(sql)
}
