//! Keys in files.
ghost use Rattle.std.specs.Prelude.{◌≡◌, List, [], ◌∷◌, OnOk, ℕ};
ghost use Rattle.std.specs.Path.{path_bytes};
ghost use Rattle.standard.specs.Statement.{IsShortest, PrivateKey, PrivateKeyEncoding, PublicKeyEncoding};
ghost use Rattle.der_core.specs.Words.{FileGives, FileTakes, created, opened, with_calls};
ghost use Rattle.examples.specs.Keys.{public_half_of};

use pkcs1::der::FileSystem;
use pkcs1::{DecodeRsaPrivateKey, EncodeRsaPublicKey, Result, RsaPrivateKeyOwned};
use std::alloc::Global;
use std::path::Path;

/// Reads a private key from a file and writes its public half to another, which is touched only after the key was read.
/// What an error says is said at the two calls.
pub fn publish<F: FileSystem>(
    files: &mut F,
    alloc: Global,
    private: Path<'_>,
    public: Path<'_>,
) -> Result<()>
    ensures published { let takes = FileTakes (F.creates (path_bytes public.entry)) F.Created.is_closed
        F.Created.contents in
        OnOk result ((key : PrivateKey) × (read : List ℕ) × (written : List ℕ)
        × FileGives (F.opens (path_bytes private.entry)) F.Opened.remaining read × PrivateKeyEncoding key read
        × takes F.Created.is_flushed written × IsShortest PublicKeyEncoding (public_half_of key) written) }
    ensures called { OnOk result (F.calls files.new ≡ with_calls (F.calls files.old)
        (opened (path_bytes private.entry) ∷ created (path_bytes public.entry) ∷ [])) }
{
    let key = RsaPrivateKeyOwned::read_pkcs1_der_file(files, alloc, private)?;
    key.public_key().write_pkcs1_der_file(files, alloc, public)
}
