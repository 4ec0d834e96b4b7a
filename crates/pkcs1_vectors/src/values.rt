//! The words of rows about INTEGERs, OCTET STRINGs and documents: each public function with a `Told` writes a row's
//! output to it, or the trouble for which there is none.
use crate::shown::Shown;
use crate::told::{PrintedError, Told};
use crate::written::{contents, written};
use der_core::{
    Document, Encode, EncodeValue, FromRead, OctetStringRef, Result, SecretDocument, Uint, UintRef,
};

/// The value, its encoding, and its contents.
fn made<T: Shown + Encode + EncodeValue + Drop>(to: &mut Told, answer: Result<T>) {
    match answer {
        Ok(value) => {
            value.shown(to);
            to.text(" ");
            written(to, &value);
            to.text(" ");
            contents(to, &value);
        }
        Err(error) => error.told(to),
    }
}

/// `uint-new HEX`: the number with these bytes, its encoding, and its contents with their length.
pub fn uint_new(to: &mut Told, bytes: &[u8]) {
    made(to, UintRef::new(bytes));
    to.way("owned");
    let own = Uint::new(to.alloc(), bytes);
    made(to, own);
}

/// `bits HEX`: the bit length of the number with these bytes.
pub fn bits(to: &mut Told, bytes: &[u8]) {
    match UintRef::new(bytes) {
        Ok(number) => to.plain(number.bit_len()),
        Err(error) => error.told(to),
    }
}

/// `small-new N`: the same for a small number.
pub fn small_new(to: &mut Told, number: usize) {
    match u8::try_from(number) {
        Ok(number) => made(to, Ok(number)),
        Err(_) => to.malformed(),
    }
}

/// `octets-new HEX`: the same for an OCTET STRING; then how many octets it has, and whether it is empty.
pub fn octets_new(to: &mut Told, bytes: &[u8]) {
    made(to, OctetStringRef::new(bytes));
    if let Ok(string) = OctetStringRef::new(bytes) {
        to.text(" ");
        to.number(string.len().to_usize());
        to.text(" ");
        to.plain(string.is_empty());
    }
}

/// The bytes of a document and their number, or the error.
fn held(to: &mut Told, answer: Result<Document>) {
    match answer {
        Ok(document) => {
            to.number(document.len().to_usize());
            to.text(" ");
            to.digits(document.as_bytes());
        }
        Err(error) => error.told(to),
    }
}

/// The same for a secret document.
fn held_secret(to: &mut Told, answer: Result<SecretDocument>) {
    match answer {
        Ok(document) => {
            to.number(document.len().to_usize());
            to.text(" ");
            to.digits(document.as_bytes());
        }
        Err(error) => error.told(to),
    }
}

/// `document HEX`: documents of these bytes, from a slice and from a source.
pub fn document(to: &mut Told, bytes: &[u8]) {
    let alloc = to.alloc();
    held(to, Document::from_der(alloc, bytes));
    to.way("secret");
    held_secret(to, SecretDocument::from_der(alloc, bytes));
    to.way("read_from");
    held(to, Document::read_from(alloc, &mut FromRead::new(bytes)));
    to.way("secret_read_from");
    held_secret(
        to,
        SecretDocument::read_from(alloc, &mut FromRead::new(bytes)),
    );
}
