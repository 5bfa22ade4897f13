//! Files that a command reads.

use std::fs::{File, open};
use std::io::{Error, ErrorKind};

/// Why a file cannot be read, in words.
fn reason(e: &Error) -> &'static str {
    match e.kind() {
        ErrorKind::NotFound => "there is no such file",
        ErrorKind::PermissionDenied => "it may not be read",
        ErrorKind::OutOfMemory => "out of memory",
        _ => "it cannot be opened",
    }
}

/// Opens the file with this path for reading, or says why not.
pub(crate) fn open_file(host: &HostRuntime, path: &str) -> Result<File, &'static str> {
    match open(host, path) {
        Err(e) => Err(reason(&e)),
        Ok(file) => match file.metadata() {
            Ok(found) if found.is_dir() => Err("it is a directory"),
            _ => Ok(file),
        },
    }
}
