//! A key type of a caller, which implements the traits of keys.
ghost use Rattle.std.specs.Prelude.{◌≡◌, List, ℕ, IfOk, IfErr};
ghost use Rattle.der_core.specs.Words.{IsDocument, encoding_of, NoValueOrMemory};
ghost use Rattle.der_core.specs.declared.error.ErrorKind.TheVariants.{OutOfMemory};
ghost use Rattle.pkcs1_params.specs.Words.{IsAsn1};

use crate::tests::checks::equal;
use crate::tests::key_files::PRIVATE;
use der_core::{Document, Error, ErrorKind, SecretDocument, Tag};
use pkcs1::{DecodeRsaPrivateKey, EncodeRsaPrivateKey, EncodeRsaPublicKey, Result};
use std::alloc::Global;
use std::fs;
use std::path::Path;
use std::test::Fail;

/// A key that holds the bytes that it was made from, whatever they are.
#[derive(Debug, PartialEq, Eq, Drop)]
pub struct CarriedKey {
    bytes: Vec<u8>,
}

/// Copies the bytes.
fn copied(alloc: Global, bytes: &[u8]) -> der_core::Result<Vec<u8>>
    ensures ok { IfOk result (λ copy. copy.items ≡ bytes.now) }
    ensures err { IfErr result (λ e. e.kind ≡ OutOfMemory) }
{
    let mut copy = Vec::new(alloc);
    copy.extend_from_slice(bytes)?;
    Ok(copy)
}

impl DecodeRsaPrivateKey for CarriedKey {
    ghost stands_for = { λ key bytes. key.bytes.items ≡ bytes };

    ghost rejected_by = { λ bytes e. IsAsn1 (λ asn1. asn1.kind ≡ OutOfMemory) e };

    fn from_pkcs1_der(alloc: Global, bytes: &[u8]) -> Result<CarriedKey>
        ensures held { IfOk result (λ key. key.bytes.items ≡ bytes.now) }
        ensures err { IfErr result (IsAsn1 (λ e. e.kind ≡ OutOfMemory)) }
    {
        Ok(CarriedKey {
            bytes: copied(alloc, bytes)?,
        })
    }
}

impl EncodeRsaPrivateKey for CarriedKey {
    ghost written_as = { λ key bytes. key.bytes.items ≡ bytes };

    ghost unwritten_by = { λ key. let is_document = IsDocument key.bytes.items in
        IsAsn1 (λ e. NoValueOrMemory e.kind is_document (is_document → ⊥)) };

    fn to_pkcs1_der(&self, alloc: Global) -> Result<SecretDocument>
        ensures encoding { IfOk result (λ document. self.now.bytes.items ≡ encoding_of document) }
        ensures err { let is_document = IsDocument self.now.bytes.items in
            IfErr result (IsAsn1 (λ e. NoValueOrMemory e.kind is_document (is_document → ⊥))) }
    {
        Ok(SecretDocument::from_der(alloc, self.bytes.as_slice())?)
    }
}

impl EncodeRsaPublicKey for CarriedKey {
    ghost written_as = { λ key bytes. key.bytes.items ≡ bytes };

    ghost unwritten_by = { λ key. let is_document = IsDocument key.bytes.items in
        IsAsn1 (λ e. NoValueOrMemory e.kind is_document (is_document → ⊥)) };

    fn to_pkcs1_der(&self, alloc: Global) -> Result<Document>
        ensures encoding { IfOk result (λ document. self.now.bytes.items ≡ encoding_of document) }
        ensures err { let is_document = IsDocument self.now.bytes.items in
            IfErr result (IsAsn1 (λ e. NoValueOrMemory e.kind is_document (is_document → ⊥))) }
    {
        Ok(Document::from_der(alloc, self.bytes.as_slice())?)
    }
}

#[test]
fn a_carried_key_goes_through_a_file(rt: HostRuntime) -> std::result::Result<(), Fail> {
    let key = CarriedKey::from_pkcs1_der(rt.alloc(), PRIVATE)?;
    let path = Path::new("carried_key.der");
    EncodeRsaPrivateKey::write_pkcs1_der_file(&key, &mut &rt, rt.alloc(), path)?;
    let again = CarriedKey::read_pkcs1_der_file(&mut &rt, rt.alloc(), path)?;
    fs::remove_file(&rt, path)?;
    equal(&rt, again.bytes.as_slice(), PRIVATE);
    Ok(())
}

#[test]
fn a_carried_key_that_is_no_document_leaves_an_old_file(
    rt: HostRuntime,
) -> std::result::Result<(), Fail> {
    let key = CarriedKey::from_pkcs1_der(rt.alloc(), &[0x05, 0x00])?;
    let kind = ErrorKind::TagUnexpected {
        expected: Tag::SEQUENCE,
        actual: Tag::from_octet(0x05)?,
    };
    let rejected = pkcs1::Error::Asn1(Error::new(kind));
    let private = EncodeRsaPrivateKey::to_pkcs1_der(&key, rt.alloc()).map(|_| ());
    equal(&rt, private, Err(rejected));
    let path = Path::new("untouched.der");
    fs::write(&rt, path, "old")?;
    let private = EncodeRsaPrivateKey::write_pkcs1_der_file(&key, &mut &rt, rt.alloc(), path);
    let public = EncodeRsaPublicKey::write_pkcs1_der_file(&key, &mut &rt, rt.alloc(), path);
    let kept = fs::read(&rt, path)?;
    fs::remove_file(&rt, path)?;
    equal(&rt, private, Err(rejected));
    equal(&rt, public, Err(rejected));
    equal(&rt, kept.as_slice(), b"old".as_slice());
    Ok(())
}
