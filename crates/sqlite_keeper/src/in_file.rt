//! The database in a file. No other source names the store of one.

use crate::database::{Ask, Database};
use crate::fault::fault_of;
use row_keeper::KeeperFault;
use sqlite::{Connection, Error, File, FileStore, Row};
use std::alloc::Global;

/// A database in a file.
pub(crate) type FileDatabase = Database<FileStore<File>>;

/// Opens the database in the file of this name, or makes it. The file is this connection's alone until it is
/// dropped.
pub(crate) fn opened(rt: &HostRuntime, name: &str) -> Result<FileDatabase, Error> {
    let connection = Connection::open(rt, name)?;
    Database::over(connection)
}

/// Asks a database.
pub(crate) fn asked(
    alloc: Global,
    database: &mut FileDatabase,
    ask: &Ask<'_>,
) -> Result<Vec<Row>, KeeperFault> {
    database.answer(alloc, ask)
}

/// Commits what waits for it, and takes the log into the file.
pub(crate) fn closed(database: FileDatabase) -> Result<(), KeeperFault> {
    let connection = database.ended()?;
    match connection.close() {
        Ok(()) => Ok(()),
        Err(error) => Err(fault_of(error)),
    }
}
