//! Copying keys from file to file.
ghost use Rattle.std.specs.Prelude.{◌≡◌, IfErr, IfOk, OnOk};
ghost use Rattle.std.specs.Path.{path_bytes};
ghost use Rattle.der_core.specs.Words.{GivesAll, opened, with_call};
ghost use Rattle.pkcs1.specs.Words.{IsEncoded, rsa_private_key, rsa_public_key};
ghost use Rattle.pkcs1_params.specs.Words.{IsAsn1};
ghost use Rattle.standard.specs.Statement.{PrivateKeyEncoding, PublicKeyEncoding};
ghost use Rattle.pkcs1_program.specs.Words.{EndsCopy, FillsFile, KeyFileGives, MakesCalls, WhyFileNotRead, WhyKeyNotRead, private_key_mode, public_key_mode, public_key_umask, umask_always};

use crate::copied::{Copied, Private, Public};
use crate::copy_error::FileError;
use crate::output_file::{Unwritten, write_output};
use crate::replace::ReplaceFiles;
use crate::sequence::read_sequence;
use der_core::Source;
use pkcs1::Error;
use std::alloc::Global;
use std::path::Path;

/// Reads the encoding of a key, which must be all that the source gives until its end.
fn read_key<K: Copied, R: Source>(alloc: Global, source: &mut R) -> Result<Vec<u8>, Error>
    ensures ok { IfOk result (λ encoding. GivesAll (R.remaining source.old) (R.remaining source.new) encoding.items
        × IsEncoded K.encoding encoding.items) }
    ensures quiet { OnOk result (R.failures source.new ≡ R.failures source.old) }
    ensures err { IfErr result (IsAsn1 (λ e. WhyKeyNotRead K.given e.kind (R.remaining source.old)
        (R.remaining source.new) (R.failures source.old) (R.failures source.new))) }
{
    let encoding = read_sequence(alloc, source)?;
    K::check(encoding.as_slice())?;
    Ok(encoding)
}

/// What was read from a file: the encoding of a key, and the bits of the file's mode.
#[derive(Drop)]
struct KeyFile {
    encoding: Vec<u8>,
    mode: u32,
}

/// Opens the file at the path, and reads the encoding of a key, which must be all that it gives.
fn read_file<K: Copied, F: ReplaceFiles>(
    files: &mut F,
    alloc: Global,
    path: Path<'_>,
) -> Result<KeyFile, Error>
    ensures ok { IfOk result (λ it. KeyFileGives K.encoding (F.opens (path_bytes path.entry)) F.has_mode
        F.Opened.remaining it.mode it.encoding.items) }
    ensures err { IfErr result (IsAsn1 (λ e. WhyFileNotRead K.given (F.opens (path_bytes path.entry))
        F.Opened.remaining F.Opened.failures e.kind)) }
    ensures called { F.calls files.new ≡ with_call (F.calls files.old) (opened (path_bytes path.entry)) }
{
    let mut source = files.open(path)?;
    let mode = files.mode(&source);
    let encoding = read_key::<K, F::Opened>(alloc, &mut source)?;
    Ok(KeyFile { encoding, mode })
}

/// Copies a key from file to file.
fn copy_file<'a, K: Copied, F: ReplaceFiles>(
    files: &mut F,
    alloc: Global,
    input: Path<'a>,
    output: Path<'a>,
) -> Result<(), FileError<'a>>
    ensures { let old = FillsFile F.opens_in_place F.Created.is_closed F.Created.contents F.Created.is_flushed
        F.Created.failures in
        let new = FillsFile F.creates_new F.New.is_closed F.New.contents F.New.is_flushed F.New.failures in
        let Made = MakesCalls (F.calls files.old) (F.calls files.new) in
        EndsCopy K.encoding K.mode K.umask (F.opens (path_bytes input.entry)) F.has_mode
        F.Opened.remaining F.aims old new Made (path_bytes input.entry) (path_bytes output.entry) K.given
        F.Opened.failures result }
{
    let key = match read_file::<K, F>(files, alloc, input) {
        Ok(key) => key,
        Err(error) => return Err(FileError::reading(input, error)),
    };
    match write_output::<K, F>(files, alloc, output, key.mode, key.encoding.as_slice()) {
        Ok(()) => Ok(()),
        Err(Unwritten { error, left }) => Err(FileError::writing(output, error, left)),
    }
}

/// Copies a public key from file to file. The other file is looked for only after the key was read.
/// Ok: all that the file opened at the first path gave is the encoding of a key, and the file at the second path has
/// exactly it. A new file has the mode of the one that it replaces or, if there is none, what the umask leaves of the
/// mode of the file that was read. Err with `Read`, and the first path: that file can't be opened, or no key was read,
/// for a reason of `read_sequence` or with the first fault of all as a key. Err with `Write`, and the second path: a key
/// was read, and that file doesn't have it, unless only the disk couldn't be waited for. Nothing else is done with
/// files.
pub fn copy_pub<'a, F: ReplaceFiles>(
    files: &mut F,
    alloc: Global,
    input: Path<'a>,
    output: Path<'a>,
) -> Result<(), FileError<'a>>
    ensures { let old = FillsFile F.opens_in_place F.Created.is_closed F.Created.contents F.Created.is_flushed
        F.Created.failures in
        let new = FillsFile F.creates_new F.New.is_closed F.New.contents F.New.is_flushed F.New.failures in
        let Made = MakesCalls (F.calls files.old) (F.calls files.new) in
        EndsCopy PublicKeyEncoding public_key_mode public_key_umask (F.opens (path_bytes input.entry)) F.has_mode
        F.Opened.remaining F.aims old new Made (path_bytes input.entry) (path_bytes output.entry) rsa_public_key
        F.Opened.failures result }
{
    copy_file::<Public, F>(files, alloc, input, output)
}

/// Copies a private key from file to file, as `copy_pub` does a public one, but for the mode of a new file: it has those
/// bits that the owner has in the mode of the file that was read, less what the umask takes, and no others.
pub fn copy_priv<'a, F: ReplaceFiles>(
    files: &mut F,
    alloc: Global,
    input: Path<'a>,
    output: Path<'a>,
) -> Result<(), FileError<'a>>
    ensures { let old = FillsFile F.opens_in_place F.Created.is_closed F.Created.contents F.Created.is_flushed
        F.Created.failures in
        let new = FillsFile F.creates_new F.New.is_closed F.New.contents F.New.is_flushed F.New.failures in
        let Made = MakesCalls (F.calls files.old) (F.calls files.new) in
        EndsCopy PrivateKeyEncoding private_key_mode umask_always (F.opens (path_bytes input.entry)) F.has_mode
        F.Opened.remaining F.aims old new Made (path_bytes input.entry) (path_bytes output.entry) rsa_private_key
        F.Opened.failures result }
{
    copy_file::<Private, F>(files, alloc, input, output)
}
