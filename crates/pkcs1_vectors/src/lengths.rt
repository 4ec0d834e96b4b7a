//! The words of rows about lengths, tags and headers: each public function with a `Told` writes a row's output to it,
//! or the trouble for which there is none.
use crate::told::{PrintedError, Told};
use der_core::{Header, Length, Reader, Result, SliceReader, Tag, TagNumber};

/// The length that was read, and how many bytes are left.
fn read_length(bytes: &[u8]) -> Result<(Length, usize)> {
    let mut reader = SliceReader::new(bytes)?;
    let length = Length::decode(&mut reader)?;
    Ok((length, reader.remaining_len().to_usize()))
}

/// How many bytes are left.
pub fn left(to: &mut Told, bytes: usize) {
    to.text(", ");
    to.number(bytes);
    to.text(" left");
}

/// `length HEX`: the length at the front of the bytes, the octets of that length, and how many bytes are left.
pub fn length(to: &mut Told, bytes: &[u8]) {
    match read_length(bytes) {
        Ok((length, rest)) => {
            told(to, Ok(length));
            left(to, rest);
        }
        Err(error) => error.told(to),
    }
}

/// The length in decimal digits, and its octets.
fn told(to: &mut Told, answer: Result<Length>) {
    match answer {
        Ok(length) => {
            to.number(length.to_usize());
            to.text(" ");
            to.digits(length.to_bytes().as_slice());
        }
        Err(error) => error.told(to),
    }
}

/// `length-of N`: the number as a length.
pub fn length_of(to: &mut Told, number: usize) {
    told(to, Length::try_from(number));
}

/// `length-max`: the greatest length.
pub fn max(to: &mut Told) {
    told(to, Ok(Length::MAX));
}

/// `length-sum M N`: the sum of two lengths, in either order.
pub fn sum(to: &mut Told, first: usize, second: usize) {
    match (Length::try_from(first), Length::try_from(second)) {
        (Ok(first), Ok(second)) => {
            told(to, first.checked_add(second));
            to.way("exchanged");
            told(to, second.checked_add(first));
        }
        _ => to.malformed(),
    }
}

/// `length-tlv N`: the length of an encoding with N octets of contents.
pub fn for_tlv(to: &mut Told, number: usize) {
    match Length::try_from(number) {
        Ok(length) => told(to, length.for_tlv(Tag::SEQUENCE)),
        Err(_) => to.malformed(),
    }
}

/// `tag HEX`: the tag with this octet.
pub fn tag(to: &mut Told, bytes: &[u8]) {
    match bytes {
        [octet] => match Tag::from_octet(*octet) {
            Ok(tag) => to.digits(&[tag.octet()]),
            Err(error) => error.told(to),
        },
        _ => to.malformed(),
    }
}

/// `tag-named NAME`: the octet of a named tag.
pub fn named(to: &mut Told, name: &str) {
    let tag = match name {
        "INTEGER" => Tag::INTEGER,
        "OCTET_STRING" => Tag::OCTET_STRING,
        "NULL" => Tag::NULL,
        "OBJECT_IDENTIFIER" => Tag::OBJECT_IDENTIFIER,
        "SEQUENCE" => Tag::SEQUENCE,
        _ => return to.malformed(),
    };
    to.digits(&[tag.octet()]);
}

/// The number as that of a tag, if it is at most 30.
pub fn tag_number(number: usize) -> Option<TagNumber> {
    match u8::try_from(number) {
        Ok(number) if number <= 30 => Some(TagNumber::new(number)),
        _ => None,
    }
}

/// `tag-context N`: the octet of the tag `[N]`.
pub fn context(to: &mut Told, number: usize) {
    match tag_number(number) {
        Some(number) => {
            to.digits(&[Tag::context(number).octet()]);
            to.way("value");
            to.digits(&[0xa0 | number.value()]);
        }
        None => to.malformed(),
    }
}

/// The header that was read, and how many bytes are left.
fn read_header(bytes: &[u8]) -> Result<(Header, usize)> {
    let mut reader = SliceReader::new(bytes)?;
    let header = Header::decode(&mut reader)?;
    Ok((header, reader.remaining_len().to_usize()))
}

/// `header HEX`: the tag and the length at the front of the bytes, the octets of both, and how many bytes are left.
pub fn header(to: &mut Told, bytes: &[u8]) {
    match read_header(bytes) {
        Ok((header, rest)) => {
            to.octets(&[header.tag.octet()]);
            to.text(" ");
            to.number(header.length.to_usize());
            to.text(" ");
            to.digits(header.to_bytes().as_slice());
            left(to, rest);
        }
        Err(error) => error.told(to),
    }
}
