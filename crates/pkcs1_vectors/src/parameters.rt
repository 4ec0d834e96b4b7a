//! The words of rows about parameters of RSASSA-PSS and RSAES-OAEP: each public function with a `Told` writes a row's
//! output to it, or the trouble for which there is none.
use crate::read::{both, compared, read, told};
use crate::shown::Shown;
use crate::told::{PrintedError, Told};
use crate::written::{encoding_of, held_too, written};
use der_core::{Decode, Encode, EncodeValue, Sequence};
use pkcs1::{
    Result, RsaOaepParamsOwned, RsaOaepParamsRef, RsaPssParamsOwned, RsaPssParamsRef,
    fault_of_oaep_params, fault_of_pss_params,
};
use spki_core::AssociatedOid;
use std::alloc::Global;

/// Owned parameters, and documents of them if these differ from what is written.
fn documents<'a, T: Decode<&'a [u8], Global> + Shown + Encode + EncodeValue + Sequence<'a>>(
    to: &mut Told,
    bytes: &'a [u8],
) {
    to.way("from_der");
    match T::from_der(to.alloc(), bytes) {
        Ok(params) => {
            told(to, bytes, &params);
            held_too(to, &params);
        }
        Err(error) => error.told(to),
    }
}

/// `pss HEX`: PSS parameters, borrowed and owned, written again by the traits and by documents.
pub fn pss(to: &mut Told, bytes: &[u8]) {
    both::<RsaPssParamsRef, RsaPssParamsOwned>(to, bytes);
    to.way("try_from");
    read(to, bytes, RsaPssParamsRef::try_from(bytes));
    documents::<RsaPssParamsOwned>(to, bytes);
    compared(
        to,
        RsaPssParamsRef::try_from(bytes),
        fault_of_pss_params(bytes),
    );
}

/// `oaep HEX`: OAEP parameters, borrowed and owned, written again by the traits and by documents.
pub fn oaep(to: &mut Told, bytes: &[u8]) {
    both::<RsaOaepParamsRef, RsaOaepParamsOwned>(to, bytes);
    to.way("try_from");
    read(to, bytes, RsaOaepParamsRef::try_from(bytes));
    documents::<RsaOaepParamsOwned>(to, bytes);
    compared(
        to,
        RsaOaepParamsRef::try_from(bytes),
        fault_of_oaep_params(bytes),
    );
}

/// The parameters and their encoding.
fn with_text<T: Shown + Encode>(to: &mut Told, params: &T) {
    params.shown(to);
    to.text(" ");
    written(to, params);
}

/// `pss-default`: the PSS parameters with every field at its default, their encoding, and the salt length.
pub fn pss_default(to: &mut Told) {
    let alloc = to.alloc();
    with_text(to, &RsaPssParamsRef::default());
    to.text(" ");
    to.plain(RsaPssParamsRef::SALT_LEN_DEFAULT);
    to.way("owned");
    with_text(to, &RsaPssParamsOwned::default_in(alloc));
    to.text(" ");
    to.plain(RsaPssParamsRef::SALT_LEN_DEFAULT);
}

/// `oaep-default`: the OAEP parameters with every field at its default, and their encoding.
pub fn oaep_default(to: &mut Told) {
    let alloc = to.alloc();
    with_text(to, &RsaOaepParamsRef::default());
    to.way("owned");
    with_text(to, &RsaOaepParamsOwned::default_in(alloc));
}

/// Whether two parameters are equal, or the first error of reading them.
fn same<T: PartialEq + Drop>(to: &mut Told, first: Result<T>, second: Result<T>) {
    match (first, second) {
        (Ok(one), Ok(other)) => to.yes_or_no(one == other),
        (Err(error), _) | (Ok(_), Err(error)) => error.told(to),
    }
}

/// `pss-same HEX HEX`: whether two encodings mean equal parameters.
pub fn pss_same(to: &mut Told, first: &[u8], second: &[u8]) {
    let first = RsaPssParamsRef::try_from(first);
    same(to, first, RsaPssParamsRef::try_from(second));
}

/// `oaep-same HEX HEX`: whether two encodings mean equal parameters.
pub fn oaep_same(to: &mut Told, first: &[u8], second: &[u8]) {
    let first = RsaOaepParamsRef::try_from(first);
    same(to, first, RsaOaepParamsRef::try_from(second));
}

/// The encoding and its length.
fn made<T: Encode>(to: &mut Told, params: &T) {
    let text = encoding_of(to.alloc(), params);
    if let Ok(digits) = &text {
        to.number(digits.len() / 2);
        to.text(" ");
    }
    to.answered(text);
}

/// `new-pss-HASH N`: PSS parameters with this hash function and a salt of N octets.
pub fn new_pss<D: AssociatedOid>(to: &mut Told, salt: usize) {
    match u8::try_from(salt) {
        Ok(salt) => made(to, &RsaPssParamsRef::new::<D>(salt)),
        Err(_) => to.malformed(),
    }
}

/// `new-oaep-HASH`: OAEP parameters with this hash function and the empty label.
pub fn new_oaep<D: AssociatedOid>(to: &mut Told) {
    made(to, &RsaOaepParamsRef::new::<D>());
}

/// `label-HASH HEX`: OAEP parameters with this hash function and label.
pub fn with_label<D: AssociatedOid>(to: &mut Told, label: &[u8]) {
    if RsaOaepParamsRef::label_fits::<D>(label.len()) {
        made(to, &RsaOaepParamsRef::new_with_label::<D>(label));
    } else {
        to.malformed();
    }
}
