//! The words of rows about errors as they are printed: each public function with a `Told` writes a row's output to it,
//! or the trouble for which there is none.
use crate::told::Told;
use der_core::{Error, ErrorKind, Tag};

/// The kinds without a tag.
fn plain_kind(name: &str) -> Option<ErrorKind> {
    let kind = match name {
        "Failed" => ErrorKind::Failed,
        "Incomplete" => ErrorKind::Incomplete,
        "IndefiniteLength" => ErrorKind::IndefiniteLength,
        "OidMalformed" => ErrorKind::OidMalformed,
        "OidUnknown" => ErrorKind::OidUnknown,
        "Overflow" => ErrorKind::Overflow,
        "Overlength" => ErrorKind::Overlength,
        "ParametersMissing" => ErrorKind::ParametersMissing,
        "TrailingData" => ErrorKind::TrailingData,
        "NoRoom" => ErrorKind::NoRoom,
        "File" => ErrorKind::File,
        "OutOfMemory" => ErrorKind::OutOfMemory,
        _ => return None,
    };
    Some(kind)
}

/// The kind with this name. Tags are SEQUENCE, or NULL where INTEGER was expected.
fn named_kind(name: &str) -> Option<ErrorKind> {
    let tag = Tag::SEQUENCE;
    let (expected, actual) = (Tag::INTEGER, Tag::NULL);
    match name {
        "Length" => Some(ErrorKind::Length { tag }),
        "Noncanonical" => Some(ErrorKind::Noncanonical { tag }),
        "Value" => Some(ErrorKind::Value { tag }),
        "TagUnexpected" => Some(ErrorKind::TagUnexpected { expected, actual }),
        "TagUnknown" => Some(ErrorKind::TagUnknown { octet: 0x1f }),
        _ => plain_kind(name),
    }
}

/// `kind NAME`: an error of `der_core` of this kind, as it is printed.
pub fn kind(to: &mut Told, name: &str) {
    match named_kind(name) {
        Some(kind) => to.plain(Error::new(kind)),
        None => to.malformed(),
    }
}

/// `error NAME`: an error of `pkcs1`, as it is printed. The name of a kind stands for the error of `der_core`.
pub fn error(to: &mut Told, name: &str) {
    let error = match name {
        "Version" => pkcs1::Error::Version,
        "KeyMalformed" => pkcs1::Error::KeyMalformed,
        "Crypto" => pkcs1::Error::Crypto,
        name => match named_kind(name) {
            Some(kind) => pkcs1::Error::from(Error::new(kind)),
            None => return to.malformed(),
        },
    };
    to.plain(error);
}
