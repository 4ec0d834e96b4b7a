//! Keys in files.
use crate::tests::checks::equal;
use der_core::{Error, ErrorKind, Tag};
use pkcs1::{
    DecodeRsaPrivateKey, DecodeRsaPublicKey, EncodeRsaPrivateKey, EncodeRsaPublicKey,
    RsaPrivateKeyOwned, RsaPrivateKeyRef, RsaPublicKeyOwned, RsaPublicKeyRef, reencode_private_key,
    reencode_public_key,
};
use std::fs;
use std::path::Path;
use std::test::Fail;

/// A private key.
pub const PRIVATE: &[u8] = &[
    0x30, 0x1b, 0x02, 0x01, 0x00, 0x02, 0x01, 0x07, 0x02, 0x01, 0x03, 0x02, 0x01, 0x05, 0x02, 0x01,
    0x0b, 0x02, 0x01, 0x0d, 0x02, 0x01, 0x02, 0x02, 0x01, 0x04, 0x02, 0x01, 0x06,
];

/// A public key.
pub const PUBLIC: &[u8] = &[0x30, 0x06, 0x02, 0x01, 0x07, 0x02, 0x01, 0x03];

const FILE_ERROR: pkcs1::Error = pkcs1::Error::Asn1(Error {
    kind: ErrorKind::File,
});

#[test]
fn owned_private_keys_go_through_files(rt: HostRuntime) -> Result<(), Fail> {
    let alloc = rt.alloc();
    let path = Path::new("owned.der");
    let key = RsaPrivateKeyOwned::from_pkcs1_der(alloc, PRIVATE)?;
    key.write_pkcs1_der_file(&mut &rt, alloc, path)?;
    let again = RsaPrivateKeyOwned::read_pkcs1_der_file(&mut &rt, alloc, path)?;
    let no_public = RsaPublicKeyOwned::read_pkcs1_der_file(&mut &rt, alloc, path);
    let held = fs::read(&rt, path)?;
    fs::remove_file(&rt, path)?;
    equal(&rt, held.as_slice(), PRIVATE);
    equal(&rt, again.to_pkcs1_der(alloc)?.as_bytes(), PRIVATE);
    let trailing = pkcs1::Error::Asn1(Error::new(ErrorKind::TrailingData));
    equal(&rt, no_public, Err(trailing));
    Ok(())
}

#[test]
fn borrowed_private_keys_go_to_files(rt: HostRuntime) -> Result<(), Fail> {
    let alloc = rt.alloc();
    let path = Path::new("borrowed.der");
    RsaPrivateKeyRef::decode_key(alloc, PRIVATE)?.write_pkcs1_der_file(&mut &rt, alloc, path)?;
    let held = fs::read(&rt, path)?;
    fs::remove_file(&rt, path)?;
    equal(&rt, held.as_slice(), PRIVATE);
    Ok(())
}

#[test]
fn public_keys_go_through_files(rt: HostRuntime) -> Result<(), Fail> {
    let alloc = rt.alloc();
    let path = Path::new("public.der");
    RsaPublicKeyRef::try_from(PUBLIC)?.write_pkcs1_der_file(&mut &rt, alloc, path)?;
    let again = RsaPublicKeyOwned::read_pkcs1_der_file(&mut &rt, alloc, path)?;
    let no_private = RsaPrivateKeyOwned::read_pkcs1_der_file(&mut &rt, alloc, path);
    let held = fs::read(&rt, path)?;
    fs::remove_file(&rt, path)?;
    equal(&rt, held.as_slice(), PUBLIC);
    equal(&rt, again.to_pkcs1_der(alloc)?.as_bytes(), PUBLIC);
    let version = ErrorKind::Value { tag: Tag::INTEGER };
    let rejected = pkcs1::Error::Asn1(Error::new(version));
    equal(&rt, no_private.map(|_| ()), Err(rejected));
    Ok(())
}

#[test]
fn keys_are_encoded_again(rt: HostRuntime) -> Result<(), Fail> {
    let alloc = rt.alloc();
    let private = reencode_private_key(alloc, PRIVATE)?;
    equal(&rt, private.as_bytes(), PRIVATE);
    let public = reencode_public_key(alloc, PUBLIC)?;
    equal(&rt, public.as_bytes(), PUBLIC);
    Ok(())
}

#[test]
fn absent_files_are_told(rt: HostRuntime) {
    let path = Path::new("absent.der");
    let absent = RsaPublicKeyOwned::read_pkcs1_der_file(&mut &rt, rt.alloc(), path);
    equal(&rt, absent, Err(FILE_ERROR));
    let absent = RsaPrivateKeyOwned::read_pkcs1_der_file(&mut &rt, rt.alloc(), path).map(|_| ());
    equal(&rt, absent, Err(FILE_ERROR));
    equal(&rt, fs::metadata(&rt, path).is_err(), true);
}

#[test]
fn full_devices_are_told(rt: HostRuntime) -> Result<(), Fail> {
    let alloc = rt.alloc();
    let full = Path::new("/dev/full");
    let public = RsaPublicKeyRef::try_from(PUBLIC)?;
    let written = public.write_pkcs1_der_file(&mut &rt, alloc, full);
    equal(&rt, written, Err(FILE_ERROR));
    let private = RsaPrivateKeyRef::decode_key(alloc, PRIVATE)?;
    let written = private.write_pkcs1_der_file(&mut &rt, alloc, full);
    equal(&rt, written, Err(FILE_ERROR));
    Ok(())
}
