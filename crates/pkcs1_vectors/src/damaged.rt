//! The words of rows about encodings that are damaged, or joined from parts that don't belong together: each public
//! function with a `Told` writes a row's output to it, or the trouble for which there is none.
use crate::told::Told;
use der_core::{
    Decode, Encode, Error, ErrorKind, Length, NoMemory, Reader, SliceReader, decode_optional,
};
use pkcs1::{
    RsaOaepParamsRef, RsaPrivateKeyRef, RsaPrivateKeyView, RsaPssParamsRef, RsaPublicKeyRef,
};
use std::alloc::Global;

/// More room than a damaged encoding needs.
const ROOM: usize = 64;

/// A type whose encodings are damaged.
pub trait Damaged {
    /// Whether the bytes, if any way of reading accepts them, are handled correctly by all; `None` if they are
    /// rejected.
    fn is_well(alloc: Global, text: &[u8]) -> Option<bool>;
}

/// RSA public keys.
pub struct Public;

/// RSA private keys.
pub struct Private;

/// Parameters of RSASSA-PSS.
pub struct Pss;

/// Parameters of RSAES-OAEP.
pub struct Oaep;

/// Whether every read returns `Failed`.
fn has_failed(mut reader: SliceReader<'_>) -> bool {
    let failed = Error::new(ErrorKind::Failed);
    reader.read_slice(Length::ZERO) == Err(failed)
        && decode_optional::<u8, _, _>(NoMemory, &mut reader) == Err(failed)
}

impl Damaged for Public {
    fn is_well(_alloc: Global, text: &[u8]) -> Option<bool> {
        let mut reader = SliceReader::new(text).ok()?;
        let front = RsaPublicKeyRef::decode(NoMemory, &mut reader);
        match RsaPublicKeyRef::try_from(text) {
            Ok(key) => {
                let again = key.encode_to_slice(&mut [0; ROOM]) == Ok(text);
                Some(again && front == Ok(key))
            }
            Err(_) if front.is_err() && !has_failed(reader) => Some(false),
            Err(_) => None,
        }
    }
}

impl Damaged for Private {
    fn is_well(alloc: Global, text: &[u8]) -> Option<bool> {
        let view = RsaPrivateKeyView::try_from(text).is_ok();
        match RsaPrivateKeyRef::decode_key(alloc, text) {
            Ok(key) => Some(view && key.encode_to_slice(&mut [0; ROOM]) == Ok(text)),
            Err(_) if view => Some(false),
            Err(_) => None,
        }
    }
}

impl Damaged for Pss {
    fn is_well(_alloc: Global, text: &[u8]) -> Option<bool> {
        let params = RsaPssParamsRef::try_from(text).ok()?;
        let mut slice = [0; ROOM];
        let again = params.encode_to_slice(&mut slice).ok()?;
        Some(again.len() <= text.len() && RsaPssParamsRef::try_from(again) == Ok(params))
    }
}

impl Damaged for Oaep {
    fn is_well(_alloc: Global, text: &[u8]) -> Option<bool> {
        let params = RsaOaepParamsRef::try_from(text).ok()?;
        let mut slice = [0; ROOM];
        let again = params.encode_to_slice(&mut slice).ok()?;
        Some(again.len() <= text.len() && RsaOaepParamsRef::try_from(again) == Ok(params))
    }
}

/// Which of the types accept the bytes.
fn accepting(alloc: Global, text: &[u8]) -> [(&'static str, bool); 4] {
    [
        ("pub", Public::is_well(alloc, text).is_some()),
        ("priv", Private::is_well(alloc, text).is_some()),
        ("pss", Pss::is_well(alloc, text).is_some()),
        ("oaep", Oaep::is_well(alloc, text).is_some()),
    ]
}

/// Shows the types that accept the bytes. With a length, the bytes are the proper beginning of that length.
fn tell_accepting(to: &mut Told, text: &[u8], length: Option<usize>) {
    for (name, accepts) in accepting(to.alloc(), text) {
        if accepts {
            to.gap();
            if let Some(length) = length {
                to.number(length);
                to.text(" as ");
            }
            to.text(name);
        }
    }
}

/// `types HEX`: the types that accept the bytes, and the lengths of the proper beginnings that any type accepts.
pub fn types(to: &mut Told, text: &[u8]) {
    tell_accepting(to, text, None);
    for length in 0..text.len() {
        tell_accepting(to, &text[..length], Some(length));
    }
}

/// How many encodings were tried, were accepted, and were handled wrongly.
#[derive(Clone, Copy)]
struct Counts {
    texts: u64,
    accepted: u64,
    wrong: u64,
}

impl Counts {
    fn none() -> Counts {
        Counts {
            texts: 0,
            accepted: 0,
            wrong: 0,
        }
    }

    fn add<D: Damaged>(&mut self, alloc: Global, text: &[u8]) {
        self.texts = self.texts.saturating_add(1);
        match D::is_well(alloc, text) {
            Some(is_well) => {
                self.accepted = self.accepted.saturating_add(1);
                self.wrong = self.wrong.saturating_add(u64::from(!is_well));
            }
            None => {}
        }
    }

    fn told(self, to: &mut Told) {
        to.plain(self.accepted);
        to.text(" of ");
        to.plain(self.texts);
        to.text(" accepted, ");
        to.plain(self.wrong);
        to.text(" wrong");
    }
}

/// `changed-TYPE HEX`: of all encodings with one byte changed to another value, how many are accepted, and how many of
/// these are handled wrongly.
pub fn changed<D: Damaged>(to: &mut Told, bytes: &[u8]) {
    let Ok(mut text) = Vec::from_slice(to.alloc(), bytes) else {
        return to.out_of_memory();
    };
    let text = text.as_mut_slice();
    let mut counts = Counts::none();
    for index in 0..text.len() {
        let byte = text[index];
        for value in 0..=255_u8 {
            if value != byte {
                text[index] = value;
                counts.add::<D>(to.alloc(), text);
            }
        }
        text[index] = byte;
    }
    counts.told(to);
}

/// The SEQUENCE of `count` parts. Their indices are the digits of `number`, the lowest digit first.
fn sequence(alloc: Global, parts: &[Vec<u8>], count: u32, mut number: usize) -> Option<Vec<u8>> {
    let mut contents = Vec::new(alloc);
    for _ in 0..count {
        let part = number.checked_rem(parts.len())?;
        contents.extend_from_slice(parts[part].as_slice()).ok()?;
        number /= parts.len();
    }
    let length = u8::try_from(contents.len()).ok()?;
    let mut text = Vec::from_array(alloc, [0x30, length]).ok()?;
    text.extend_from_slice(contents.as_slice()).ok()?;
    Some(text)
}

/// `joined-TYPE N HEX HEX..`: the same for the SEQUENCEs of up to N parts, in any order and with repetitions.
pub fn joined<D: Damaged>(to: &mut Told, most: u32, parts: &[Vec<u8>]) {
    let mut counts = Counts::none();
    for count in 0..=most {
        let Some(sequences) = parts.len().checked_pow(count) else {
            return to.malformed();
        };
        for number in 0..sequences {
            match sequence(to.alloc(), parts, count, number) {
                Some(text) => counts.add::<D>(to.alloc(), text.as_slice()),
                None => return to.malformed(),
            }
        }
    }
    counts.told(to);
}
