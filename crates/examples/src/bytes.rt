//! Keys in memory.
ghost use Rattle.std.specs.Prelude.{◌≡◌, ◌⊎◌, ⊤, IfOk, IfErr, OnErr, Some, None};
ghost use Rattle.standard.specs.Statement.{Decodes, IsShortest, PrivateKey, PrivateKeyEncoding, PublicKey, PublicKeyEncoding, octets};
ghost use Rattle.der_core.specs.Words.{encoding_of};
ghost use Rattle.pkcs1.specs.Words.{MayAllocate, Rejects, Withholds};
ghost use Rattle.examples.specs.Keys.{public_half_of};

use pkcs1::der::Document;
use pkcs1::{EncodeRsaPublicKey, Result, RsaPrivateKeyRef, RsaPublicKeyRef};
use std::alloc::Global;

/// The modulus of a public key: its bytes, most significant first, without leading zeros.
pub fn modulus_of(encoding: &[u8]) -> Result<&[u8]>
    ensures ok { IfOk result (λ modulus. (key : PublicKey)
        × Decodes PublicKeyEncoding encoding.now (Some key) × (modulus.now ≡ octets key.modulus)) }
    ensures err { OnErr result (Decodes PublicKeyEncoding encoding.now None) }
{
    let key = RsaPublicKeyRef::try_from(encoding)?;
    Ok(key.modulus.as_bytes())
}

/// The encoding of a private key's public half. Err: the slice is no key, memory ran out, or the half has no encoding.
pub fn public_half(alloc: Global, encoding: &[u8]) -> Result<Document>
    ensures ok { IfOk result (λ document. (key : PrivateKey) × Decodes PrivateKeyEncoding encoding.now (Some key)
        × IsShortest PublicKeyEncoding (public_half_of key) (encoding_of document)) }
    ensures err { IfErr result (λ e. Rejects PrivateKeyEncoding encoding.now (MayAllocate encoding.now) e
        ⊎ ((key : PrivateKey) × Decodes PrivateKeyEncoding encoding.now (Some key)
        × Withholds (λ _. ⊤) PublicKeyEncoding (public_half_of key) e)) }
{
    let key = RsaPrivateKeyRef::decode_key(alloc, encoding)?;
    key.public_key().to_pkcs1_der(alloc)
}
