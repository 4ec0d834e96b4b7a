//! The words of rows about versions, keys and other primes: each public function with a `Told` writes a row's output to
//! it, or the trouble for which there is none.
use crate::carried::{private_der, public_der, viewed};
use crate::into::{in_each_room, into_each};
use crate::read::{both, compared, owned, read};
use crate::shown::Shown;
use crate::told::{PrintedError, Told};
use crate::written::{contents, encoding_of, held, held_too, written};
use der_core::{Decode, OctetStringRef, UintRef};
use pkcs1::{
    EncodeRsaPrivateKey, OtherPrimeInfos, RsaPrivateKeyOwned, RsaPrivateKeyRef, RsaPrivateKeyView,
    RsaPublicKey, RsaPublicKeyOwned, RsaPublicKeyRef, Uint, Version, fault_of_private_key,
    fault_of_public_key,
};

/// `version-new N`: the version with this number, its number, and whether it has other primes.
pub fn version_new(to: &mut Told, number: usize) {
    let Ok(number) = u8::try_from(number) else {
        return to.malformed();
    };
    match Version::try_from(number) {
        Ok(version) => {
            with_number(to, version, version.is_multi());
            to.way("eq");
            with_number(to, version, version == Version::Multi);
        }
        Err(error) => error.told(to),
    }
}

/// The version, its number, and whether it has other primes.
fn with_number(to: &mut Told, version: Version, is_multi: bool) {
    version.shown(to);
    to.text(" ");
    to.plain(u8::from(version));
    to.text(" ");
    to.plain(is_multi);
}

/// `pub HEX`: a public key, borrowed and owned, written again by the traits and by documents.
pub fn public_key(to: &mut Told, bytes: &[u8]) {
    both::<RsaPublicKeyRef, RsaPublicKeyOwned>(to, bytes);
    to.way("try_from");
    read(to, bytes, RsaPublicKeyRef::try_from(bytes));
    to.way("pkcs1_der");
    public_der(to, bytes);
    to.way("from_der");
    match RsaPublicKeyOwned::from_der(to.alloc(), bytes) {
        Ok(key) => {
            key.shown(to);
            held_too(to, &key);
        }
        Err(error) => error.told(to),
    }
    compared(
        to,
        RsaPublicKeyRef::try_from(bytes),
        fault_of_public_key(bytes),
    );
}

/// `pub-filled N`: the length and the first six octets of the encoding of the key with a modulus of N octets `11` and
/// the exponent 3, or that another key is read from it.
pub fn filled(to: &mut Told, length: usize) {
    let Ok(octets) = vec![in to.alloc(); 0x11; length] else {
        return to.out_of_memory();
    };
    let (Ok(modulus), Ok(public_exponent)) = (
        UintRef::new(octets.as_slice()),
        UintRef::new(&[0x03]),
    ) else {
        return to.malformed();
    };
    let key = RsaPublicKey {
        modulus,
        public_exponent,
    };
    match encoding_of(to.alloc(), &key) {
        Ok(digits) => filled_text(to, &key, digits.as_str()),
        Err(trouble) => to.answered(Err(trouble)),
    }
}

/// The length and the first six octets of the encoding, or that another key is read from it.
fn filled_text(to: &mut Told, key: &RsaPublicKeyRef<'_>, digits: &str) {
    let Ok(text) = hex::decode(to.alloc(), digits) else {
        return to.malformed();
    };
    if RsaPublicKeyRef::try_from(text.as_slice()) != Ok(*key) {
        return to.text("another key");
    }
    to.number(text.len());
    to.text(" ");
    match text.as_slice().get(..6) {
        Some(front) => to.digits(front),
        None => to.malformed(),
    }
}

/// `priv HEX`: a private key, borrowed and owned, written again by the traits and by documents.
pub fn private_key(to: &mut Told, bytes: &[u8]) {
    let alloc = to.alloc();
    owned::<RsaPrivateKeyRef>(to, bytes);
    to.way("owned");
    owned::<RsaPrivateKeyOwned>(to, bytes);
    to.way("decode_key");
    read(to, bytes, RsaPrivateKeyRef::decode_key(alloc, bytes));
    to.way("decode_owned_key");
    read(
        to,
        bytes,
        RsaPrivateKeyOwned::decode_owned_key(alloc, bytes),
    );
    to.way("view");
    viewed(to, bytes);
    to.way("pkcs1_der");
    private_der(to, bytes);
    to.way("from_der");
    match RsaPrivateKeyOwned::from_der(alloc, bytes) {
        Ok(key) => {
            key.shown(to);
            held_too(to, &key);
        }
        Err(error) => error.told(to),
    }
    compared(
        to,
        RsaPrivateKeyView::try_from(bytes),
        fault_of_private_key(bytes),
    );
}

/// `priv-octets HEX`: the private key inside an OCTET STRING with these octets.
pub fn from_octets(to: &mut Told, bytes: &[u8]) {
    let alloc = to.alloc();
    let Ok(octets) = OctetStringRef::new(bytes) else {
        return to.malformed();
    };
    read(
        to,
        bytes,
        RsaPrivateKeyRef::from_octet_string(alloc, octets),
    );
    to.way("owned");
    read(
        to,
        bytes,
        RsaPrivateKeyOwned::from_octet_string(alloc, octets),
    );
}

/// `priv-rooms HEX`: how many shorter slices are too short for the private key and left unchanged, and whether it is
/// written to a slice as long as its encoding.
pub fn rooms(to: &mut Told, bytes: &[u8]) {
    match RsaPrivateKeyRef::decode_key(to.alloc(), bytes) {
        Ok(key) => in_each_room(to, &key, bytes),
        Err(_) => to.malformed(),
    }
}

/// `priv-pub HEX`: the encoding of the private key's public key.
pub fn public_of_private(to: &mut Told, bytes: &[u8]) {
    match RsaPrivateKeyRef::decode_key(to.alloc(), bytes) {
        Ok(key) => {
            written(to, &key.public_key());
            to.way("from");
            written(to, &RsaPublicKeyRef::from(&key));
        }
        Err(_) => to.malformed(),
    }
}

/// `pub-error HEX`: the printed error of reading a public key.
pub fn public_error(to: &mut Told, bytes: &[u8]) {
    match RsaPublicKeyRef::try_from(bytes) {
        Ok(_) => to.malformed(),
        Err(error) => to.plain(error),
    }
}

/// `priv-debug HEX`: what `Debug` prints for the private key and for its view.
pub fn debug(to: &mut Told, bytes: &[u8]) {
    match (
        RsaPrivateKeyRef::decode_key(to.alloc(), bytes),
        RsaPrivateKeyView::try_from(bytes),
    ) {
        (Ok(key), Ok(view)) => {
            to.debug(&key);
            to.text("; ");
            to.debug(&view);
        }
        _ => to.malformed(),
    }
}

/// `priv-empty-list N HEX`: what a slice of N bytes holds after writing the private key with an empty list of other
/// primes, and the errors of writing its encoding, its contents and a document.
pub fn empty_list(to: &mut Told, room: usize, bytes: &[u8]) {
    let Ok(mut key) = RsaPrivateKeyRef::decode_key(to.alloc(), bytes) else {
        return to.malformed();
    };
    key.other_prime_infos = Some(Vec::new(to.alloc()));
    key.version().shown(to);
    to.text(" ");
    let mut slice = Told::new(to.alloc());
    into_each(&mut slice, room, &key);
    slice.way("owned");
    owned_empty_list(&mut slice, room, bytes);
    to.answered(slice.answer());
    to.text("; ");
    unwritten(to, &key);
}

/// What a slice holds after writing the private key that owns its parts, with an empty list.
fn owned_empty_list(to: &mut Told, room: usize, bytes: &[u8]) {
    match RsaPrivateKeyOwned::from_der(to.alloc(), bytes) {
        Ok(mut key) => {
            key.other_prime_infos = Some(Vec::new(to.alloc()));
            into_each(to, room, &key);
        }
        Err(_) => to.malformed(),
    }
}

/// The errors of writing the private key, its contents and a document.
fn unwritten(to: &mut Told, key: &RsaPrivateKeyRef<'_>) {
    written(to, key);
    to.text("; ");
    contents(to, key);
    to.text("; ");
    documents(to, key);
}

/// The error of each way of making a document of the private key.
fn documents(to: &mut Told, key: &RsaPrivateKeyRef<'_>) {
    let mut document = Told::new(to.alloc());
    held(&mut document, key);
    document.way("to_pkcs1_der");
    match key.to_pkcs1_der(to.alloc()) {
        Ok(der) => document.digits(der.as_bytes()),
        Err(error) => error.told(&mut document),
    }
    to.answered(document.answer());
}

/// `primes HEX`: a list of other primes.
pub fn other_primes(to: &mut Told, bytes: &[u8]) {
    owned::<OtherPrimeInfos<UintRef>>(to, bytes);
    to.way("owned");
    owned::<OtherPrimeInfos<Uint>>(to, bytes);
}
