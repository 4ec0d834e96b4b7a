//! Why a key isn't copied.
ghost use Rattle.std.specs.Prelude.{◌≡◌, None, Some, option_map};
ghost use Rattle.std.specs.Path.{path_buf_bytes, path_bytes};
ghost use Rattle.pkcs1_program.specs.Words.{file_error_text, write_error_text};

use pkcs1::Error;
use std::fmt;
use std::path::{Path, PathBuf};

/// What failed at the file to which a key is written.
#[derive(Clone, Copy, Debug, PartialEq, Eq, Drop)]
pub enum WriteError {
    /// Memory ran out.
    Memory,
    /// The file can't be opened for writing.
    Open,
    /// It is a link to nothing.
    Dangling,
    /// No new file can be created beside the file.
    Create,
    /// A write, or the wait for the disk, failed.
    Write,
    /// The new file can't take the place of the file.
    Rename,
    /// The new file took its place, but the disk can't be waited for: after a crash the old one may be there.
    Sync,
}

impl fmt::Display for WriteError {
    ghost output = { λ error. Some (write_error_text error) };

    fn fmt<W: fmt::Write>(&self, f: &mut fmt::Formatter<W>) -> fmt::Result {
        match self {
            WriteError::Memory => write!(f, "no memory was found"),
            WriteError::Open => write!(f, "it can't be opened"),
            WriteError::Dangling => write!(f, "it is a link to nothing"),
            WriteError::Create => write!(f, "no file can be created beside it"),
            WriteError::Write => write!(f, "a write failed"),
            WriteError::Rename => write!(f, "the new file can't be renamed to it"),
            WriteError::Sync => write!(f, "it is replaced, but its folder can't be synced"),
        }
    }
}

/// Why a key isn't copied.
#[derive(Clone, Copy, Debug, PartialEq, Eq, Drop)]
pub enum CopyError {
    /// The file can't be read, or what it gave is no key. The other file isn't touched.
    Read(Error),
    /// The other file refused the key.
    Write(WriteError),
}

/// Why a key isn't copied from file to file.
#[derive(Debug, Drop)]
pub struct FileError<'a> {
    pub error: CopyError,
    /// The path of the file that the error is about.
    pub path: Path<'a>,
    /// The path of a new file that couldn't be removed again. A beginning of the key, or all of it, is in it.
    pub left: Option<PathBuf>,
}

impl<'a> FileError<'a> {
    /// The file at this path wasn't read, for this reason.
    pub fn reading(path: Path<'a>, error: Error) -> FileError<'a>
        ensures error { result.error ≡ CopyError.Read error }
        ensures path { path_bytes result.path ≡ path_bytes path.entry }
        ensures left { result.left ≡ None }
    {
        FileError {
            error: CopyError::Read(error),
            path,
            left: None,
        }
    }

    /// The file at this path wasn't written, for this reason. A new file may be left at the other path.
    pub fn writing(path: Path<'a>, error: WriteError, left: Option<PathBuf>) -> FileError<'a>
        ensures error { result.error ≡ CopyError.Write error }
        ensures path { path_bytes result.path ≡ path_bytes path.entry }
        ensures left { option_map path_buf_bytes result.left ≡ option_map path_buf_bytes left }
    {
        FileError {
            error: CopyError::Write(error),
            path,
            left,
        }
    }
}

impl fmt::Display for FileError<'_> {
    ghost output = { λ told. Some (file_error_text told.error (path_bytes told.path)
        (option_map path_buf_bytes told.left)) };

    fn fmt<W: fmt::Write>(&self, f: &mut fmt::Formatter<W>) -> fmt::Result {
        let path = self.path.as_str();
        match self.error {
            CopyError::Read(error) => write!(f, "reading {path}: {error}")?,
            CopyError::Write(error) => write!(f, "writing {path}: {error}")?,
        }
        match &self.left {
            Some(left) => write!(f, ", and {} can't be removed", left.as_path().as_str()),
            None => Ok(()),
        }
    }
}
