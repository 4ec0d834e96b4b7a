//! The words of rows about optional parts, last parts and explicit fields, with small INTEGERs: each public function
//! with a `Told` writes a row's output to it, or the trouble for which there is none.
use crate::lengths::{left, tag_number};
use crate::told::{PrintedError, Told};
use crate::written::written;
use der_core::{
    Decode, DecodeParts, Last, Length, NoMemory, Reader, Result, SliceReader, decode_optional,
    read_optional,
};
use spki_core::{ContextSpecificRef, read_context_specific, read_field};

/// The number that was read, or that there is none.
fn number(to: &mut Told, part: Option<u8>) {
    match part {
        Some(number) => to.plain(number),
        None => to.text("absent"),
    }
}

/// What was read, and how many bytes are left. After an error the latter only if the reader hasn't failed.
fn told(to: &mut Told, reader: &SliceReader<'_>, answer: Result<Option<u8>>) {
    let rest = reader.remaining_len().to_usize();
    match answer {
        Ok(part) => number(to, part),
        Err(error) => {
            error.told(to);
            if rest == 0 && reader.peek_octet().is_none() {
                return;
            }
        }
    }
    left(to, rest);
}

/// What was read of all the bytes.
fn told_alone(to: &mut Told, answer: Result<Option<u8>>) {
    match answer {
        Ok(part) => {
            number(to, part);
            left(to, 0);
        }
        Err(error) => error.told(to),
    }
}

/// How a small INTEGER is read.
#[derive(Clone, Copy)]
pub enum Part {
    /// If its tag is next.
    Optional,
    /// As all of the bytes.
    Whole,
    /// As all of the bytes, if there are any.
    Last,
}

/// `optional HEX`, `whole HEX`, `last HEX`: reads a small INTEGER in this way.
pub fn read_part(to: &mut Told, bytes: &[u8], part: Part) {
    if bytes.len() > Length::MAX.to_usize() {
        return to.malformed();
    }
    match part {
        Part::Optional => {
            let Ok(mut reader) = SliceReader::new(bytes) else {
                return to.malformed();
            };
            let answer = decode_optional::<u8, _, _>(NoMemory, &mut reader);
            told(to, &reader, answer);
            to.way("read_optional");
            match read_optional::<u8, _>(NoMemory, bytes) {
                Ok((part, rest)) => {
                    number(to, part);
                    left(to, rest.len());
                }
                Err(error) => error.told(to),
            }
        }
        Part::Whole => {
            told_alone(to, u8::from_der(NoMemory, bytes).map(Some));
            to.way("read_alone");
            told_alone(to, u8::read_alone(NoMemory, bytes).map(Some));
        }
        Part::Last => match Last::<u8>::read_parts(NoMemory, bytes) {
            Ok(last) => told_alone(to, Ok(last.0)),
            Err(error) => error.told(to),
        },
    }
}

/// `field N HEX`: a small INTEGER inside `[N]` if that tag is next; then, what it is with the default 200.
pub fn field(to: &mut Told, number: usize, bytes: &[u8]) {
    let (Some(number), Ok(mut reader)) = (tag_number(number), SliceReader::new(bytes)) else {
        return to.malformed();
    };
    if bytes.len() > Length::MAX.to_usize() {
        return to.malformed();
    }
    let answer = read_context_specific::<u8, _, _>(NoMemory, &mut reader, number);
    told(to, &reader, answer);
    match read_field(NoMemory, bytes, number, 200_u8) {
        Ok((value, rest)) => {
            to.text(", or ");
            to.plain(value);
            if rest.len() != reader.remaining_len().to_usize() {
                left(to, rest.len());
            }
        }
        Err(error) => {
            to.way("read_field");
            error.told(to);
        }
    }
}

/// `field-new N M`: the encoding of the small INTEGER M inside `[N]`.
pub fn field_new(to: &mut Told, number: usize, value: usize) {
    match (tag_number(number), u8::try_from(value)) {
        (Some(tag_number), Ok(value)) => {
            let field = ContextSpecificRef {
                tag_number,
                value: &value,
            };
            written(to, &field);
        }
        _ => to.malformed(),
    }
}
