//! The kinds of keys that are copied.
ghost use Rattle.std.specs.Prelude.{◌≡◌, ℕ, List, Bool, Err, IfErr, Option, OnOk};
ghost use Rattle.der_core.specs.Words.{Reading};
ghost use Rattle.pkcs1.specs.Words.{IsEncoded, rsa_private_key, rsa_public_key};
ghost use Rattle.pkcs1_params.specs.Words.{IsAsn1};
ghost use Rattle.standard.specs.Statement.{PrivateKey, PrivateKeyEncoding, PublicKey, PublicKeyEncoding};
ghost use Rattle.pkcs1_program.specs.Words.{private_key_mode, public_key_mode, public_key_umask, umask_always};

use crate::replace::Mode;
use pkcs1::{Error, RsaPrivateKeyView, RsaPublicKeyRef};

/// A kind of key, whose encodings are copied.
pub trait Copied {
    /// What is encoded.
    ghost Key: { Type 0 };

    /// Which bytes encode a key.
    ghost encoding: { Key → List ℕ → Type 0 };

    /// The key that bytes encode, or the kind of their first fault.
    ghost given: { Reading Key };

    /// The bits of the mode of a new file, by those of the file that was read, and of the one that is replaced.
    ghost mode: { ℕ → Option ℕ → ℕ };

    /// Whether the umask takes from them, by the mode of the file that is replaced.
    ghost umask: { Option ℕ → Bool };

    /// Looks whether the bytes encode a key.
    fn check(bytes: &[u8]) -> Result<(), Error>
        ensures ok { OnOk result (IsEncoded encoding bytes.now) }
        ensures err { IfErr result (IsAsn1 (λ e. given bytes.now ≡ Err e.kind)) };

    /// The mode of a new file: the bits of the file that was read, and of the one that is replaced, if there is one.
    fn new_mode(read: u32, replaced: Option<u32>) -> Mode
        ensures mode { result.bits ≡ mode read replaced }
        ensures umask { result.umask_takes ≡ umask replaced };
}

/// Public keys.
pub struct Public;

impl Copied for Public {
    ghost Key = { PublicKey };

    ghost encoding = { PublicKeyEncoding };

    ghost given = { rsa_public_key };

    ghost mode = { public_key_mode };

    ghost umask = { public_key_umask };

    fn check(bytes: &[u8]) -> Result<(), Error> {
        RsaPublicKeyRef::try_from(bytes)?;
        Ok(())
    }

    /// That of the file that is replaced, or else of the file that was read.
    fn new_mode(read: u32, replaced: Option<u32>) -> Mode {
        Mode {
            bits: replaced.unwrap_or(read) & 0o777,
            umask_takes: replaced.is_none(),
        }
    }
}

/// Private keys.
pub struct Private;

impl Copied for Private {
    ghost Key = { PrivateKey };

    ghost encoding = { PrivateKeyEncoding };

    ghost given = { rsa_private_key };

    ghost mode = { private_key_mode };

    ghost umask = { umask_always };

    fn check(bytes: &[u8]) -> Result<(), Error> {
        RsaPrivateKeyView::try_from(bytes)?;
        Ok(())
    }

    /// The owner's bits of the file that was read. Nobody else gets any.
    fn new_mode(read: u32, _replaced: Option<u32>) -> Mode {
        Mode {
            bits: read & 0o700,
            umask_takes: true,
        }
    }
}
