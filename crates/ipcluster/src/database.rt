//! The file of a database.

use command_words::command::Command;
use std::fs::{File, OpenFile, OpenOptions};
use std::io;
use std::os::unix::fs::OpenOptionsExt;
use std::path::Path;
use thiserror::Error;

/// Who may read and write a database that is made: its owner.
const OF_OWNER: u32 = 0o600;

/// Why the file of a database can't be had.
#[derive(Debug, Drop, Error)]
pub enum DatabaseError {
    #[error("{0}")]
    Io(#[from] io::Error),
    #[error("another process has it open")]
    Held,
}

/// Opens a file for reading, and for writing where it is asked for.
fn open(rt: &HostRuntime, path: &str, write: bool, create: bool) -> io::Result<File> {
    let mut options = OpenOptions::new();
    options
        .read(true)
        .write(write)
        .create_new(create)
        .mode(OF_OWNER);
    options.open(rt, path)
}

/// Writes the names in the folder of a file to the disk, so that the file's own outlives a crash.
fn sync_folder(rt: &HostRuntime, path: &str) -> io::Result<()> {
    let folder = match Path::new(path).parent() {
        Some(folder) if !folder.as_str().is_empty() => folder,
        _ => Path::new("."),
    };
    OpenOptions::new().read(true).open(rt, folder)?.sync_all()
}

/// Opens a file for changes, and makes it where it isn't there. No other process may have it open.
fn changeable(rt: &HostRuntime, path: &str) -> Result<File, DatabaseError> {
    let file = match open(rt, path, true, false) {
        Err(error) if error.kind() == io::ErrorKind::NotFound => open(rt, path, true, true)?,
        opened => opened?,
    };
    sync_folder(rt, path)?;
    match file.try_lock() {
        Ok(()) => Ok(file),
        Err(_) => Err(DatabaseError::Held),
    }
}

/// Opens a file for reading. No other process may have it open for changes.
fn readable(rt: &HostRuntime, path: &str) -> Result<File, DatabaseError> {
    let file = open(rt, path, false, false)?;
    match file.try_lock_shared() {
        Ok(()) => Ok(file),
        Err(_) => Err(DatabaseError::Held),
    }
}

/// The file, where it could be had. Else a line says why.
fn told(
    rt: &HostRuntime,
    path: &str,
    file: Result<File, DatabaseError>,
) -> Result<File, DatabaseError> {
    if let Err(error) = &file {
        let _ = eprintln!(rt; "ipcluster: the database {}: {}", path, error);
    }
    file
}

/// Opens the file of a database for changes, and makes it where it isn't there, for its owner alone. No other process may
/// have it open. Where it can't be had a line says why.
pub fn open_for_changes(rt: &HostRuntime, path: &str) -> Result<File, DatabaseError> {
    told(rt, path, changeable(rt, path))
}

/// Opens the file of the database that a command names, where it names one: `replay` and `follow` make a file that isn't there,
/// the others change none. Where it can't be had a line says why.
pub fn open_database(rt: &HostRuntime, command: &Command) -> Result<Option<File>, DatabaseError> {
    let Some(path) = command.database() else {
        return Ok(None);
    };
    let file = match command {
        Command::Replay { .. } => open_for_changes(rt, path.as_str())?,
        Command::Follow { .. } => open_for_changes(rt, path.as_str())?,
        _ => told(rt, path.as_str(), readable(rt, path.as_str()))?,
    };
    Ok(Some(file))
}
