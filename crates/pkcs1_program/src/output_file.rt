//! Writing a key to a file: in place, or by a new file that takes its place.
ghost use Rattle.std.specs.Prelude.{◌≡◌, ◌⊎◌, List, ℕ, [], ◌∷◌, IfErr, None, OnOk, Some, option_map, true};
ghost use Rattle.std.specs.Path.{path_buf_bytes, path_bytes};
ghost use Rattle.der_core.specs.Words.{looked_for, opened_in_place, removed, renamed, synced, with_call};
ghost use Rattle.pkcs1_program.specs.Words.{EndsBeside, EndsWriting, FillsFile, MakesCalls, Removes, SinkStops, SinkTakes, absent, creation_after, stopped, whole};

use crate::copied::Copied;
use crate::copy_error::WriteError;
use crate::filter::finish;
use crate::replace::{Beside, ReplaceFiles, Target};
use der_core::Close;
use std::alloc::Global;
use std::path::{Path, PathBuf};

/// Why a file doesn't get the bytes, and the path of a new file that couldn't be removed again.
#[derive(Drop)]
pub struct Unwritten {
    pub error: WriteError,
    pub left: Option<PathBuf>,
}

impl From<WriteError> for Unwritten {
    ghost from_gives = { λ error e. (e.error ≡ error) × (e.left ≡ None) };

    /// No new file is left.
    fn from(error: WriteError) -> Unwritten {
        Unwritten { error, left: None }
    }
}

/// Writes all the bytes to a sink, flushes and closes it.
fn fill<W: Close>(sink: W, bytes: &[u8]) -> Result<(), WriteError>
    ensures ok { OnOk result (SinkTakes W.is_closed W.contents W.is_flushed sink bytes.now) }
    ensures err { IfErr result (λ error. (error ≡ WriteError.Write)
        × SinkStops W.is_closed W.contents W.failures sink bytes.now) }
{
    let mut sink = sink;
    let written = finish(bytes, &mut sink);
    sink.close();
    match written {
        Ok(()) => Ok(()),
        Err(_) => Err(WriteError::Write),
    }
}

/// Opens what is no regular file, and writes the bytes.
fn write_in_place<F: ReplaceFiles>(
    files: &mut F,
    path: Path<'_>,
    bytes: &[u8],
) -> Result<(), WriteError>
    ensures ok { let old = FillsFile F.opens_in_place F.Created.is_closed F.Created.contents F.Created.is_flushed
        F.Created.failures in
        OnOk result (old (path_bytes path.entry) whole bytes.now) }
    ensures err { let old = FillsFile F.opens_in_place F.Created.is_closed F.Created.contents F.Created.is_flushed
        F.Created.failures in
        IfErr result (λ error. ((error ≡ WriteError.Open) × old (path_bytes path.entry) absent bytes.now)
        ⊎ ((error ≡ WriteError.Write) × old (path_bytes path.entry) stopped bytes.now)) }
    ensures called { F.calls files.new ≡ with_call (F.calls files.old) (opened_in_place (path_bytes path.entry)) }
{
    match files.open_in_place(path) {
        Ok(sink) => fill(sink, bytes),
        Err(_) => Err(WriteError::Open),
    }
}

/// Removes a new file again. If that fails, its path goes into the error.
fn give_up<F: ReplaceFiles>(files: &mut F, path: PathBuf, error: WriteError) -> Unwritten
    requires created { (file : F.New) × F.creates_new (path_buf_bytes path) (Some file) }
    ensures error { result.error ≡ error }
    ensures removed { Removes (MakesCalls (F.calls files.old) (F.calls files.new))
        (λ done. removed (path_buf_bytes path) done ∷ []) (path_buf_bytes path)
        (option_map path_buf_bytes result.left) }
{
    match files.remove(path.as_path()) {
        Ok(()) => Unwritten::from(error),
        Err(_) => Unwritten {
            error,
            left: Some(path),
        },
    }
}

/// Writes the bytes to a new file, and renames that when it is whole.
fn write_beside<K: Copied, F: ReplaceFiles>(
    files: &mut F,
    beside: Beside,
    read: u32,
    bytes: &[u8],
) -> Result<(), Unwritten>
    ensures { let new = FillsFile F.creates_new F.New.is_closed F.New.contents F.New.is_flushed F.New.failures in
        let Made = MakesCalls (F.calls files.old) (F.calls files.new) in
        EndsBeside new (creation_after K.mode K.umask read) Made (path_buf_bytes beside.to)
        (path_buf_bytes beside.path) beside.replaced bytes.now result }
{
    let Beside { to, path, replaced } = beside;
    let mode = K::new_mode(read, replaced);
    let Ok(sink) = files.create_new(path.as_path(), mode) else {
        return Err(Unwritten::from(WriteError::Create));
    };
    if let Err(error) = fill(sink, bytes) {
        return Err(give_up(files, path, error));
    }
    if files.rename(path.as_path(), to.as_path()).is_err() {
        return Err(give_up(files, path, WriteError::Rename));
    }
    match files.sync_name(to.as_path()) {
        Ok(()) => Ok(()),
        Err(_) => Err(Unwritten::from(WriteError::Sync)),
    }
}

/// Writes a key of this kind, which was read from a file of the mode `read`, to the file at the path. A regular one is
/// replaced when the bytes are written, another one is written in place.
pub fn write_output<K: Copied, F: ReplaceFiles>(
    files: &mut F,
    alloc: Global,
    path: Path<'_>,
    read: u32,
    bytes: &[u8],
) -> Result<(), Unwritten>
    ensures { let old = FillsFile F.opens_in_place F.Created.is_closed F.Created.contents F.Created.is_flushed
        F.Created.failures in
        let new = FillsFile F.creates_new F.New.is_closed F.New.contents F.New.is_flushed F.New.failures in
        let Made = MakesCalls (F.calls files.old) (F.calls files.new) in
        EndsWriting F.aims old new (creation_after K.mode K.umask read)
        (λ calls. Made (looked_for (path_bytes path.entry) ∷ calls)) (path_bytes path.entry) bytes.now result }
{
    match files.target(alloc, path) {
        Ok(Target::Refused) => Err(Unwritten::from(WriteError::Open)),
        Ok(Target::Dangling) => Err(Unwritten::from(WriteError::Dangling)),
        Ok(Target::InPlace) => Ok(write_in_place(files, path, bytes)?),
        Ok(Target::Beside(beside)) => write_beside::<K, F>(files, beside, read, bytes),
        Err(_) => Err(Unwritten::from(WriteError::Memory)),
    }
}
