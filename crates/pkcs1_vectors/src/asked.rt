//! The words of rows about what a verifier and a receiver ask of parameters, as whether two mean the same, and the
//! label: each public function with a `Told` writes a row's output to it, or the trouble for which there is none.
use crate::told::{PrintedError, Told};
use der_core::{Decode, NoMemory};
use pkcs1::{RsaOaepParamsRef, RsaOaepParamsView, RsaPssParamsRef, RsaPssParamsView};
use spki_core::{AlgorithmIdentifierRef, AlgorithmView, AnyRef};

/// The answer to a question about two that were read, or the first error of reading them.
macro_rules! of_both {
    ($to:expr, $first:expr, $question:ident, $second:expr) => {
        match ($first, $second) {
            (Ok(one), Ok(other)) => $to.yes_or_no(one.$question(&other)),
            (Err(error), _) | (Ok(_), Err(error)) => error.told($to),
        }
    };
}

/// `same-hash HEX HEX`: whether two algorithm identifiers are the same hash function.
pub fn same_hash(to: &mut Told, first: &[u8], second: &[u8]) {
    let view = AlgorithmView::<AnyRef>::from_der(NoMemory, second);
    let read = AlgorithmIdentifierRef::from_der(NoMemory, first);
    of_both!(to, read, is_same_hash, view);
    to.way("view");
    let view = AlgorithmView::<AnyRef>::from_der(NoMemory, first);
    let read = AlgorithmIdentifierRef::from_der(NoMemory, second);
    of_both!(to, view, is_same_hash, read);
}

/// `pss-means-same HEX HEX`: whether two encodings of PSS parameters mean the same.
pub fn pss_means_same(to: &mut Told, first: &[u8], second: &[u8]) {
    let view = RsaPssParamsView::try_from(second);
    of_both!(to, RsaPssParamsRef::try_from(first), means_same, view);
    to.way("view");
    let view = RsaPssParamsView::try_from(first);
    of_both!(to, view, means_same, RsaPssParamsRef::try_from(second));
}

/// `oaep-means-same HEX HEX`: whether two encodings of OAEP parameters mean the same.
pub fn oaep_means_same(to: &mut Told, first: &[u8], second: &[u8]) {
    let view = RsaOaepParamsView::try_from(second);
    of_both!(to, RsaOaepParamsRef::try_from(first), means_same, view);
    to.way("view");
    let view = RsaOaepParamsView::try_from(first);
    of_both!(to, view, means_same, RsaOaepParamsRef::try_from(second));
}

/// The label in hexadecimal digits, `-` if it is empty.
fn label(to: &mut Told, label: Option<&[u8]>) {
    match label {
        Some(label) => to.digits(label),
        None => to.text("no label"),
    }
}

/// `oaep-label HEX`: the label of OAEP parameters.
pub fn oaep_label(to: &mut Told, bytes: &[u8]) {
    match RsaOaepParamsRef::try_from(bytes) {
        Ok(params) => label(to, params.label()),
        Err(error) => error.told(to),
    }
    to.way("view");
    match RsaOaepParamsView::try_from(bytes) {
        Ok(params) => label(to, params.label()),
        Err(error) => error.told(to),
    }
}
