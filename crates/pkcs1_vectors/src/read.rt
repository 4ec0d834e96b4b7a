//! Ways of reading an encoding, for the words of rows.
use crate::shown::Shown;
use crate::told::{PrintedError, Told};
use crate::written::encoding_of;
use der_core::{Decode, Encode, ErrorKind, NoMemory, Reader, Result, SliceReader, TryClone};
use std::alloc::Global;

/// The value, or the error.
pub fn shown<T: Shown + Drop, E: PrintedError>(to: &mut Told, answer: std::result::Result<T, E>) {
    match answer {
        Ok(value) => value.shown(to),
        Err(error) => error.told(to),
    }
}

/// Ends the ways, and says so if the fault that is told of the bytes isn't the error of reading them.
pub fn compared<T: Drop>(to: &mut Told, answer: pkcs1::Result<T>, fault: Option<ErrorKind>) {
    let kind = match answer {
        Err(pkcs1::Error::Asn1(error)) => Some(error.kind()),
        _ => None,
    };
    to.rest();
    if fault != kind {
        to.text("; another fault is told");
    }
}

/// The value that was read, and its encoding if that differs from the one that was read.
pub fn told<T: Shown + Encode>(to: &mut Told, bytes: &[u8], value: &T) {
    value.shown(to);
    let mut given = Told::new(to.alloc());
    given.digits(bytes);
    to.unless(given.answer(), " again=", encoding_of(to.alloc(), value));
}

/// The value that was read, or the error.
pub fn read<T: Shown + Encode + Drop, E: PrintedError>(
    to: &mut Told,
    bytes: &[u8],
    answer: std::result::Result<T, E>,
) {
    match answer {
        Ok(value) => told(to, bytes, &value),
        Err(error) => error.told(to),
    }
}

/// The value at the front of a reader with nothing behind it.
fn front<'a, T: Decode<&'a [u8], NoMemory>>(bytes: &'a [u8]) -> Result<T> {
    let mut reader = SliceReader::new(bytes)?;
    let value = T::decode(NoMemory, &mut reader)?;
    reader.finish()?;
    Ok(value)
}

/// What is read by a borrowed type.
pub fn borrowed<'a, T: Decode<&'a [u8], NoMemory> + Shown + Encode>(
    to: &mut Told,
    bytes: &'a [u8],
) {
    read(to, bytes, T::from_der(NoMemory, bytes));
    to.way("decode");
    read(to, bytes, front::<T>(bytes));
}

/// What is read by an owned type, and its copy.
pub fn owned<'a, T: Decode<&'a [u8], Global> + Shown + Encode + TryClone>(
    to: &mut Told,
    bytes: &'a [u8],
) {
    match T::from_der(to.alloc(), bytes) {
        Ok(value) => {
            told(to, bytes, &value);
            to.way("copy");
            let copy = value.try_clone(to.alloc());
            read(to, bytes, copy);
        }
        Err(error) => error.told(to),
    }
}

/// What is read by a borrowed type and by the one that owns its parts.
pub fn both<
    'a,
    B: Decode<&'a [u8], NoMemory> + Shown + Encode,
    O: Decode<&'a [u8], Global> + Shown + Encode + TryClone,
>(to: &mut Told, bytes: &'a [u8]) {
    borrowed::<B>(to, bytes);
    to.way("owned");
    owned::<O>(to, bytes);
}
