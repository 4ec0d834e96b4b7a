//! Values written into slices of a given length, for the words of rows.
use crate::told::{PrintedError, Told};
use crate::written::UNTOUCHED;
use der_core::{Decode, Encode, Error, ErrorKind, UintEncoding};
use pkcs1::{EncodeParams, OaepParamsOf, PssParamsOf, RsaPrivateKey, RsaPublicKey};
use pkcs8_core::PrivateKeyInfoRef;
use spki_core::{AnyValue, IdentifierValue};
use std::alloc::Global;

/// The slice after a call that was to write into it. The untouched bytes at its end are shown as their number. In front
/// stands the error of the call, or the length that it returned, if that isn't how many bytes were written.
pub fn after<E: PrintedError>(to: &mut Told, answer: Result<usize, E>, slice: &[u8]) {
    let untouched = slice
        .iter()
        .rev()
        .take_while(|byte| **byte == UNTOUCHED)
        .count();
    let front = &slice[..slice.len() - untouched];
    match answer {
        Ok(length) if length == front.len() => {}
        Ok(length) => {
            to.number(length);
            to.text(" bytes, ");
        }
        Err(error) => {
            error.told(to);
            to.text(", ");
        }
    }
    if !front.is_empty() {
        to.octets(front);
        to.text(" ");
    }
    to.text("aa*");
    to.number(untouched);
}

/// A slice of this length before writing.
pub fn untouched(to: &mut Told, room: usize) -> Vec<u8> {
    match vec![in to.alloc(); UNTOUCHED; room] {
        Ok(slice) => slice,
        Err(_) => {
            to.out_of_memory();
            Vec::new(to.alloc())
        }
    }
}

/// A type with a call of its own for writing into a slice.
pub trait WriteInto {
    /// Writes the value into the slice, and returns the length of its encoding.
    fn write_into(&self, slice: &mut [u8]) -> pkcs1::Result<usize>;
}

impl<U: UintEncoding + Encode> WriteInto for RsaPublicKey<U> {
    fn write_into(&self, slice: &mut [u8]) -> pkcs1::Result<usize> {
        self.encode_key(slice)
    }
}

impl<U: UintEncoding + Encode> WriteInto for RsaPrivateKey<U> {
    fn write_into(&self, slice: &mut [u8]) -> pkcs1::Result<usize> {
        self.encode_key(slice)
    }
}

impl<O: IdentifierValue, P: AnyValue> WriteInto for PssParamsOf<O, P> {
    fn write_into(&self, slice: &mut [u8]) -> pkcs1::Result<usize> {
        self.encode_params(slice)
    }
}

impl<O: IdentifierValue, P: AnyValue> WriteInto for OaepParamsOf<O, P> {
    fn write_into(&self, slice: &mut [u8]) -> pkcs1::Result<usize> {
        self.encode_params(slice)
    }
}

impl WriteInto for PrivateKeyInfoRef<'_> {
    fn write_into(&self, slice: &mut [u8]) -> pkcs1::Result<usize> {
        Ok(self.encode_info(slice)?)
    }
}

/// A slice of this length after the type's own call wrote into it, and its error.
fn into_own<T: WriteInto>(to: &mut Told, room: usize, value: &T) {
    let mut slice = untouched(to, room);
    let answer = value.write_into(slice.as_mut_slice());
    after(to, answer, slice.as_slice());
}

/// A slice of this length after each way of writing into it, and the errors.
pub fn into_each<T: WriteInto + Encode>(to: &mut Told, room: usize, value: &T) {
    into_own(to, room, value);
    to.way("encode_into");
    let mut slice = untouched(to, room);
    let answer = value.encode_into(slice.as_mut_slice());
    after(to, answer, slice.as_slice());
    to.way("encode_to_slice");
    let mut slice = untouched(to, room);
    let answer = value
        .encode_to_slice(slice.as_mut_slice())
        .map(|text| text.len());
    after(to, answer, slice.as_slice());
}

/// The same for the value that the bytes mean.
pub fn read_into<'a, T: Decode<&'a [u8], Global> + WriteInto + Encode>(
    to: &mut Told,
    room: usize,
    bytes: &'a [u8],
) {
    match T::from_der(to.alloc(), bytes) {
        Ok(value) => into_each(to, room, &value),
        Err(_) => to.malformed(),
    }
}

/// The same for the borrowed type and for the one that owns its parts.
pub fn into_both<
    'a,
    B: Decode<&'a [u8], Global> + WriteInto + Encode,
    O: Decode<&'a [u8], Global> + WriteInto + Encode,
>(to: &mut Told, room: usize, bytes: &'a [u8]) {
    read_into::<B>(to, room, bytes);
    to.way("owned");
    read_into::<O>(to, room, bytes);
}

/// The same, and for the view by its own call.
pub fn into_all<
    'a,
    B: Decode<&'a [u8], Global> + WriteInto + Encode,
    O: Decode<&'a [u8], Global> + WriteInto + Encode,
    V: Decode<&'a [u8], Global> + WriteInto,
>(to: &mut Told, room: usize, bytes: &'a [u8]) {
    into_both::<B, O>(to, room, bytes);
    to.way("view");
    match V::from_der(to.alloc(), bytes) {
        Ok(view) => into_own(to, room, &view),
        Err(_) => to.malformed(),
    }
}

/// Whether a slice of this length is too short for the value, and left unchanged.
fn is_too_short<T: Encode>(to: &mut Told, value: &T, room: usize) -> bool {
    let mut slice = untouched(to, room);
    let no_room = Error::new(ErrorKind::NoRoom);
    value.encode_to_slice(slice.as_mut_slice()) == Err(no_room)
        && slice.as_slice().iter().all(|byte| *byte == UNTOUCHED)
}

/// How many of the shorter slices are too short for the value and left unchanged, and whether it is written to a slice
/// as long as its encoding.
pub fn in_each_room<T: Encode>(to: &mut Told, value: &T, text: &[u8]) {
    let mut too_short = 0_usize;
    for room in 0..text.len() {
        if is_too_short(to, value, room) {
            too_short = too_short.saturating_add(1);
        }
    }
    to.number(too_short);
    to.text(" too short, ");
    to.number(text.len());
    let mut slice = untouched(to, text.len());
    if value.encode_to_slice(slice.as_mut_slice()) == Ok(text) {
        to.text(" written");
    } else {
        to.text(" not written");
    }
}
