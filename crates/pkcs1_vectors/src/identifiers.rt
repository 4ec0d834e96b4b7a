//! The words of rows about parameters in their algorithm identifiers: each public function with a `Told` writes a row's
//! output to it, or the trouble for which there is none.
use crate::read::{compared, told};
use crate::shown::Shown;
use crate::told::{PrintedError, Told};
use crate::written::encoding_of;
use der_core::{Decode, Encode, NoMemory};
use pkcs1::hash_functions::Sha256;
use pkcs1::{
    FromAlgorithm, Result, RsaOaepParamsRef, RsaOaepParamsView, RsaPssParamsRef, RsaPssParamsView,
    fault_of_oaep_algorithm, fault_of_pss_algorithm,
};
use spki_core::{AlgorithmIdentifierRef, AlgorithmView, AnyRef};

/// The value that was read, its encoding if that differs from the one that was read, and what `encode_algorithm` wrote
/// if that differs from its encoding.
fn identified<T: Shown + Encode>(
    to: &mut Told,
    bytes: &[u8],
    algorithm: &T,
    slice: &[u8],
    length: Result<usize>,
) {
    told(to, bytes, algorithm);
    let mut written = Told::new(to.alloc());
    match length {
        Ok(length) => written.digits(slice.get(..length).unwrap_or(slice)),
        Err(error) => error.told(&mut written),
    }
    let encoding = encoding_of(to.alloc(), algorithm);
    to.unless(encoding, "; encode_algorithm: ", written.answer());
}

fn pss(to: &mut Told, bytes: &[u8], answer: Result<RsaPssParamsRef<'_>>) {
    match answer {
        Ok(params) => {
            let mut slice = [0; 400];
            let length = params.encode_algorithm(&mut slice);
            identified(to, bytes, &params.to_algorithm(), &slice, length);
        }
        Err(error) => error.told(to),
    }
}

fn oaep(to: &mut Told, bytes: &[u8], answer: Result<RsaOaepParamsRef<'_>>) {
    match answer {
        Ok(params) => {
            let mut slice = [0; 400];
            let length = params.encode_algorithm(&mut slice);
            identified(to, bytes, &params.to_algorithm(), &slice, length);
        }
        Err(error) => error.told(to),
    }
}

/// The parameters in an identifier that is read first.
fn parsed<'a, T: FromAlgorithm<'a>>(bytes: &'a [u8]) -> Result<T> {
    let algorithm = AlgorithmIdentifierRef::from_der(NoMemory, bytes)?;
    T::from_algorithm(&algorithm)
}

/// `pss-algorithm HEX`: the algorithm identifier of PSS, by each way of reading, written again.
pub fn pss_algorithm(to: &mut Told, bytes: &[u8]) {
    pss(to, bytes, RsaPssParamsRef::from_algorithm_der(bytes));
    to.way("from_algorithm");
    pss(to, bytes, parsed(bytes));
    to.way("view");
    pss(
        to,
        bytes,
        RsaPssParamsView::from_algorithm_der(bytes).map(RsaPssParamsView::to_params),
    );
    compared(
        to,
        RsaPssParamsView::from_algorithm_der(bytes),
        fault_of_pss_algorithm(bytes),
    );
}

/// `pss-algorithm-strict HEX`: the same, read strictly.
pub fn pss_strict(to: &mut Told, bytes: &[u8]) {
    pss(to, bytes, RsaPssParamsRef::from_algorithm_der_strict(bytes));
    to.way("view");
    pss(
        to,
        bytes,
        RsaPssParamsView::from_algorithm_der_strict(bytes).map(RsaPssParamsView::to_params),
    );
}

/// `oaep-algorithm HEX`: the algorithm identifier of OAEP, by each way of reading, written again.
pub fn oaep_algorithm(to: &mut Told, bytes: &[u8]) {
    oaep(to, bytes, RsaOaepParamsRef::from_algorithm_der(bytes));
    to.way("from_algorithm");
    oaep(to, bytes, parsed(bytes));
    to.way("view");
    oaep(
        to,
        bytes,
        RsaOaepParamsView::from_algorithm_der(bytes).map(RsaOaepParamsView::to_params),
    );
    compared(
        to,
        RsaOaepParamsView::from_algorithm_der(bytes),
        fault_of_oaep_algorithm(bytes),
    );
}

/// `oaep-algorithm-strict HEX`: the same, read strictly.
pub fn oaep_strict(to: &mut Told, bytes: &[u8]) {
    oaep(
        to,
        bytes,
        RsaOaepParamsRef::from_algorithm_der_strict(bytes),
    );
    to.way("view");
    oaep(
        to,
        bytes,
        RsaOaepParamsView::from_algorithm_der_strict(bytes).map(RsaOaepParamsView::to_params),
    );
}

/// `is-sha256 HEX`: whether this is the algorithm identifier of SHA-256.
pub fn is_sha256(to: &mut Told, bytes: &[u8]) {
    match AlgorithmIdentifierRef::from_der(NoMemory, bytes) {
        Ok(algorithm) => to.yes_or_no(algorithm.is_hash::<Sha256>()),
        Err(error) => error.told(to),
    }
    to.way("view");
    match AlgorithmView::<AnyRef>::from_der(NoMemory, bytes) {
        Ok(algorithm) => to.yes_or_no(algorithm.is_hash::<Sha256>()),
        Err(error) => error.told(to),
    }
}
