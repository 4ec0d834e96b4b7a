//! A public key of one's own.
ghost use Rattle.std.specs.Prelude.{◌≡◌, ◌⊎◌, IfErr, IfOk, None, Some};
ghost use Rattle.standard.specs.Statement.{Decodes, PublicKey, PublicKeyEncoding};
ghost use Rattle.der_core.specs.declared.error.ErrorKind.TheVariants.{OutOfMemory};
ghost use Rattle.pkcs1_params.specs.Words.{IsAsn1};

use pkcs1::{DecodeRsaPublicKey, Result, RsaPublicKeyRef};
use std::alloc::Global;

/// The encoding of a public key.
#[derive(Debug, Drop)]
pub struct KeptKey {
    /// The octets.
    pub encoding: Vec<u8>,
}

impl DecodeRsaPublicKey for KeptKey {
    ghost stands_for = { λ kept bytes. (kept.encoding.items ≡ bytes)
        × ((key : PublicKey) × Decodes PublicKeyEncoding bytes (Some key)) };

    ghost rejected_by = { λ bytes e.
        Decodes PublicKeyEncoding bytes None ⊎ IsAsn1 (λ asn1. asn1.kind ≡ OutOfMemory) e };

    fn from_pkcs1_der(alloc: Global, bytes: &[u8]) -> Result<KeptKey> {
        let _key = RsaPublicKeyRef::try_from(bytes)?;
        Ok(KeptKey {
            encoding: copied(alloc, bytes)?,
        })
    }
}

/// A copy, or `OutOfMemory`.
fn copied(alloc: Global, bytes: &[u8]) -> der_core::Result<Vec<u8>>
    ensures ok { IfOk result (λ copy. copy.items ≡ bytes.now) }
    ensures err { IfErr result (λ e. e.kind ≡ OutOfMemory) }
{
    Ok(Vec::from_slice(alloc, bytes)?)
}
