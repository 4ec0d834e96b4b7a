//! Ways of writing a value, shown in hexadecimal digits, for the words of rows.
use crate::told::{Answer, PrintedError, Told};
use der_core::{Document, Encode, EncodeValue, SecretDocument, Sequence, SliceWriter};
use std::alloc::Global;

/// More room than the longest encoding of a row needs.
const ROOM: usize = 1200;

/// What the bytes of a slice are before writing.
pub const UNTOUCHED: u8 = 0xaa;

/// The encoding at the front of a slice.
fn filled<T: Encode>(to: &mut Told, value: &T) {
    match value.encode_to_slice(&mut [UNTOUCHED; ROOM]) {
        Ok(text) => to.digits(text),
        Err(error) => error.told(to),
    }
}

/// The same, or the counted length if it isn't that of the encoding.
fn counted<T: Encode>(to: &mut Told, value: &T) {
    match (
        value.encoded_len(),
        value.encode_to_slice(&mut [UNTOUCHED; ROOM]),
    ) {
        (Ok(length), Ok(text)) if length.to_usize() == text.len() => to.digits(text),
        (Ok(length), _) => {
            to.number(length.to_usize());
            to.text(" bytes");
        }
        (Err(error), _) => error.told(to),
    }
}

/// The encoding, appended by a writer.
fn streamed<T: Encode>(to: &mut Told, value: &T) {
    let mut slice = [UNTOUCHED; ROOM];
    let mut writer = SliceWriter::new(&mut slice);
    match value.encode(&mut writer) {
        Ok(()) => to.digits(writer.finish()),
        Err(error) => error.told(to),
    }
}

/// The encoding, by each call of `Encode`.
pub fn encoding_of<T: Encode>(alloc: Global, value: &T) -> Answer {
    let mut text = Told::new(alloc);
    filled(&mut text, value);
    text.way("encoded_len");
    counted(&mut text, value);
    text.way("encode");
    streamed(&mut text, value);
    text.answer()
}

/// Shows the encoding.
pub fn written<T: Encode>(to: &mut Told, value: &T) {
    to.answered(encoding_of(to.alloc(), value));
}

/// The contents, appended by a writer.
fn appended<T: EncodeValue>(to: &mut Told, value: &T) {
    let mut slice = [UNTOUCHED; ROOM];
    let mut writer = SliceWriter::new(&mut slice);
    match value.encode_value(&mut writer) {
        Ok(()) => to.digits(writer.finish()),
        Err(error) => error.told(to),
    }
}

/// The contents octets and their number.
pub fn contents<T: EncodeValue>(to: &mut Told, value: &T) {
    let mut octets = Told::new(to.alloc());
    appended(&mut octets, value);
    match value.value_len() {
        Ok(length) => {
            to.number(length.to_usize());
            to.text(" ");
        }
        Err(error) => {
            octets.way("value_len");
            error.told(&mut octets);
        }
    }
    to.answered(octets.answer());
}

/// Documents of the value.
pub fn held<'a, T: EncodeValue + Sequence<'a>>(to: &mut Told, value: &T) {
    match Document::encode_msg(to.alloc(), value) {
        Ok(document) => to.digits(document.as_bytes()),
        Err(error) => error.told(to),
    }
    to.way("secret");
    match SecretDocument::encode_msg(to.alloc(), value) {
        Ok(secret) => to.digits(secret.as_bytes()),
        Err(error) => error.told(to),
    }
}

/// Documents of the value, if they differ from its encoding.
pub fn held_too<'a, T: Encode + EncodeValue + Sequence<'a>>(to: &mut Told, value: &T) {
    let mut document = Told::new(to.alloc());
    held(&mut document, value);
    let written = encoding_of(to.alloc(), value);
    to.unless(written, "; document: ", document.answer());
}
