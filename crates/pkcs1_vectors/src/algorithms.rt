//! The words of rows about object identifiers, encodings of any tag, and algorithm identifiers: each public function
//! with a `Told` writes a row's output to it, or the trouble for which there is none.
use crate::read::{both, owned, shown};
use crate::shown::Shown;
use crate::told::{PrintedError, Told};
use crate::written::written;
use der_core::{Decode, DecodeValue, Encode, FixedTag, NoMemory, Result, Tag};
use spki_core::{
    AlgorithmIdentifier, AlgorithmIdentifierRef, Any, AnyParams, AnyRef, AnyValue,
    AsAlgorithmIdentifierRef, ObjectIdentifier,
};

/// The encoding of the value, or the error.
fn made<T: Encode + Drop>(to: &mut Told, answer: Result<T>) {
    match answer {
        Ok(value) => written(to, &value),
        Err(error) => error.told(to),
    }
}

/// `oid-new HEX`: the encoding of the identifier with these contents octets.
pub fn oid_new(to: &mut Told, bytes: &[u8]) {
    made(to, ObjectIdentifier::from_bytes(bytes));
}

/// The tag, if there is exactly one octet.
fn tag_of(octets: &[u8]) -> Option<Tag> {
    match octets {
        [octet] => Tag::from_octet(*octet).ok(),
        _ => None,
    }
}

/// `any HEX`: an encoding of any tag, borrowed and owned, and a copy of the borrowed one.
pub fn any(to: &mut Told, bytes: &[u8]) {
    both::<AnyRef, Any>(to, bytes);
    to.way("try_clone");
    owned::<AnyRef>(to, bytes);
}

/// `any-new TAG HEX`: the encoding of this tag with these contents. Without contents, that of `empty` as well.
pub fn any_new(to: &mut Told, tag: &[u8], bytes: &[u8]) {
    let Some(tag) = tag_of(tag) else {
        return to.malformed();
    };
    let alloc = to.alloc();
    made(to, AnyRef::new(tag, bytes));
    to.way("owned");
    made(to, Any::new(alloc, tag, bytes));
    if bytes.is_empty() {
        to.way("empty");
        written(to, &AnyRef::empty(NoMemory, tag));
        to.way("owned empty");
        written(to, &Any::empty(alloc, tag));
    }
}

/// `as-TYPE TAG HEX`: the contents under this tag, decoded as those of another type.
pub fn read_as<'a, T: DecodeValue<&'a [u8], NoMemory> + FixedTag + Shown>(
    to: &mut Told,
    tag: &[u8],
    bytes: &'a [u8],
) {
    let Some(tag) = tag_of(tag) else {
        return to.malformed();
    };
    match AnyRef::new(tag, bytes) {
        Ok(any) => shown(to, any.decode_as::<T, _>(NoMemory)),
        Err(error) => error.told(to),
    }
}

/// The encoding of the parameters, or that there are none.
fn parameters_of<P: AnyValue>(to: &mut Told, algorithm: &AlgorithmIdentifier<P>) {
    made(to, algorithm.parameters_any());
}

/// The parameters of the borrowed identifier, and of the one that owns its parts.
fn parameters(
    to: &mut Told,
    borrowed: &AlgorithmIdentifierRef<'_>,
    own: &AlgorithmIdentifier<Any>,
) {
    let mut parameters = Told::new(to.alloc());
    parameters_of(&mut parameters, borrowed);
    parameters.way("owned");
    parameters_of(&mut parameters, own);
    to.answered(parameters.answer());
}

/// `algorithm HEX`: an identifier with parameters of any tag, and the encoding of the parameters.
pub fn algorithm(to: &mut Told, bytes: &[u8]) {
    both::<AlgorithmIdentifierRef, AlgorithmIdentifier<Any>>(to, bytes);
    let Ok(borrowed) = AlgorithmIdentifierRef::from_der(NoMemory, bytes) else {
        return;
    };
    match AlgorithmIdentifier::<Any>::from_der(to.alloc(), bytes) {
        Ok(own) => {
            to.way("as_algo_ref");
            own.as_algo_ref().shown(to);
            to.rest();
            to.text(", ");
            parameters(to, &borrowed, &own);
        }
        Err(error) => {
            to.way("from_der");
            error.told(to);
        }
    }
}

/// `assert-oid HEX HEX`: the identifier of the algorithm in the first bytes if its contents octets are the second ones,
/// else the error.
pub fn asserted(to: &mut Told, bytes: &[u8], octets: &[u8]) {
    match (
        AlgorithmIdentifierRef::from_der(NoMemory, bytes),
        ObjectIdentifier::from_bytes(octets),
    ) {
        (Ok(algorithm), Ok(oid)) => shown(to, algorithm.assert_algorithm_oid(oid)),
        _ => to.malformed(),
    }
}
