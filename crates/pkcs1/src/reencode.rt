//! Keys that are decoded and encoded again.
ghost use Rattle.std.specs.Prelude.{◌≡◌, ◌⊎◌, IfOk, IfErr};
ghost use Rattle.pkcs1.specs.Words.{OwnedKeyAllocates, OwnedPublicKeyAllocates, bytes_if_read, rsa_private_key, rsa_public_key, IsEncoded, Rejects};
ghost use Rattle.pkcs1_params.specs.Words.{AnswersAsn1OrAsks};
ghost use Rattle.der_core.specs.Words.{encoding_of};
ghost use Rattle.standard.specs.Statement.{PrivateKeyEncoding, PublicKeyEncoding};

use crate::private_key::RsaPrivateKeyOwned;
use crate::public_key::RsaPublicKeyOwned;
use crate::traits::{
    DecodeRsaPrivateKey, DecodeRsaPublicKey, EncodeRsaPrivateKey, EncodeRsaPublicKey,
};
use der_core::{Document, SecretDocument};
use pkcs1_params::Result;
use std::alloc::Global;

/// Reads a public key from the whole slice, and makes its document, which holds the same bytes. Ok only if the slice
/// encodes a key. Err: the first fault of a public key, or `OutOfMemory`, which comes where it may for
/// `from_pkcs1_der`, or if the slice encodes a key.
pub fn reencode_public_key(alloc: Global, bytes: &[u8]) -> Result<Document>
    ensures same { IfOk result (λ document. encoding_of document ≡ bytes.now) }
    ensures encoding { IfOk result (λ document. IsEncoded PublicKeyEncoding bytes.now) }
    ensures err { IfErr result (Rejects PublicKeyEncoding bytes.now
        (OwnedPublicKeyAllocates bytes.now ⊎ IsEncoded PublicKeyEncoding bytes.now)) }
    ensures exact { let asked = OwnedPublicKeyAllocates bytes.now ⊎ IsEncoded PublicKeyEncoding bytes.now in
        AnswersAsn1OrAsks encoding_of (bytes_if_read rsa_public_key bytes.now) asked result }
{
    RsaPublicKeyOwned::from_pkcs1_der(alloc, bytes)?.to_pkcs1_der(alloc)
}

/// Reads a private key from the whole slice, and makes its document, which holds the same bytes. Ok only if the slice
/// encodes a key. Err: the first fault of a private key, or `OutOfMemory`, which comes where it may for
/// `from_pkcs1_der`, or if the slice encodes a key.
pub fn reencode_private_key(alloc: Global, bytes: &[u8]) -> Result<SecretDocument>
    ensures same { IfOk result (λ document. encoding_of document ≡ bytes.now) }
    ensures encoding { IfOk result (λ document. IsEncoded PrivateKeyEncoding bytes.now) }
    ensures err { IfErr result (Rejects PrivateKeyEncoding bytes.now
        (OwnedKeyAllocates bytes.now ⊎ IsEncoded PrivateKeyEncoding bytes.now)) }
    ensures exact { let asked = OwnedKeyAllocates bytes.now ⊎ IsEncoded PrivateKeyEncoding bytes.now in
        AnswersAsn1OrAsks encoding_of (bytes_if_read rsa_private_key bytes.now) asked result }
{
    RsaPrivateKeyOwned::from_pkcs1_der(alloc, bytes)?.to_pkcs1_der(alloc)
}
