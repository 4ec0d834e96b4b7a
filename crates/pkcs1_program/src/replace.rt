//! Files of which a new one can take the place of an old one.
ghost use Rattle.std.specs.Prelude.{◌≡◌, ℕ, List, Option, Some, is_ok};
ghost use Rattle.std.specs.Path.{path_bytes};
ghost use Rattle.der_core.specs.Words.{Obtains, created_new, looked_for, opened_in_place, removed, renamed, synced, with_call};
ghost use Rattle.pkcs1_program.specs.Words.{Aim, FillsFile, aimed, whole};

use der_core::{Close, FileSystem, Result};
use std::alloc::{AllocError, Global};
use std::io;
use std::path::{Path, PathBuf};

/// How a file is written.
#[derive(Drop)]
pub enum Target {
    /// Not at all: it can't be written, or no path without a link leads to it.
    Refused,
    /// Not at all: it is a link to nothing.
    Dangling,
    /// By opening it: it is no regular file.
    InPlace,
    /// By a new file, which takes its place.
    Beside(Beside),
}

/// A new file that takes the place of another.
#[derive(Drop)]
pub struct Beside {
    /// The path that the new file gets in the end, at which no link stands.
    pub to: PathBuf,
    /// The path that the new file gets at first, in the same folder.
    pub path: PathBuf,
    /// The bits of the mode of the file that it replaces. `None`: there is none.
    pub replaced: Option<u32>,
}

/// The mode of a new file.
#[derive(Clone, Copy, Debug, PartialEq, Eq, Drop)]
pub struct Mode {
    /// The bits.
    pub bits: u32,
    /// Whether the umask takes from them.
    pub umask_takes: bool,
}

/// Files of which a new one can take the place of an old one, by one call. Each `Files` of std is one.
pub trait ReplaceFiles: FileSystem {
    /// A file that was created where none was.
    type New: Close + Drop;

    /// The opened file has this mode.
    ghost has_mode: { Self.Opened → ℕ → Type 0 };

    /// What is at this path is written in this way; `None`: memory ran out before that was known.
    ghost aims: { List ℕ → Option Aim → Type 0 };

    /// Opening what isn't replaced gave this sink, to which nothing was written yet; `None`: it gave none.
    ghost opens_in_place: { List ℕ → Option Self.Created → Type 0 };

    /// Creating a file where nothing was gave this sink, to which nothing was written yet; `None`: it gave none.
    ghost creates_new: { List ℕ → Option Self.New → Type 0 };

    /// The bits of the mode of an opened file. If they can't be read, they are those that let only the owner read and
    /// write.
    fn mode(&self, file: &Self::Opened) -> u32
        ensures { has_mode file.now result };

    /// How to write what is at the path. This changes nothing. A new file has a name that others don't foresee.
    fn target(&mut self, alloc: Global, path: Path<'_>) -> std::result::Result<Target, AllocError>
        ensures aim { aims (path_bytes path.entry) (aimed result) }
        ensures called { Self.calls self.new
            ≡ with_call (Self.calls self.old) (looked_for (path_bytes path.entry)) };

    /// Opens what is no regular file.
    fn open_in_place(&mut self, path: Path<'_>) -> Result<Self::Created>
        ensures obtained { Obtains (opens_in_place (path_bytes path.entry)) result }
        ensures called { Self.calls self.new
            ≡ with_call (Self.calls self.old) (opened_in_place (path_bytes path.entry)) };

    /// Creates a file with this mode where nothing is.
    fn create_new(&mut self, path: Path<'_>, mode: Mode) -> Result<Self::New>
        ensures obtained { Obtains (creates_new (path_bytes path.entry)) result }
        ensures called { Self.calls self.new
            ≡ with_call (Self.calls self.old) (created_new (path_bytes path.entry) mode.bits mode.umask_takes) };

    /// Renames a new file, which must have taken some bytes and been flushed and closed. What is at the other path is
    /// replaced.
    fn rename(&mut self, from: Path<'_>, to: Path<'_>) -> io::Result<()>
        requires whole { let new = FillsFile creates_new Self.New.is_closed Self.New.contents Self.New.is_flushed
            Self.New.failures in
            (bytes : List ℕ) × new (path_bytes from) whole bytes }
        ensures called { Self.calls self.new
            ≡ with_call (Self.calls self.old) (renamed (path_bytes from.entry) (path_bytes to.entry) (is_ok result)) };

    /// Waits until the disk has the name of the file at the path.
    fn sync_name(&mut self, path: Path<'_>) -> io::Result<()>
        ensures called { Self.calls self.new
            ≡ with_call (Self.calls self.old) (synced (path_bytes path.entry) (is_ok result)) };

    /// Removes a file that was created where nothing was.
    fn remove(&mut self, path: Path<'_>) -> io::Result<()>
        requires created { (file : Self.New) × creates_new (path_bytes path) (Some file) }
        ensures called { Self.calls self.new
            ≡ with_call (Self.calls self.old) (removed (path_bytes path.entry) (is_ok result)) };
}
