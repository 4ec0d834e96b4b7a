//! A row's word and its parameters.
use crate::told::{Answer, Told, Trouble};
use crate::words;
use hex::FromHexError;
use std::alloc::Global;

/// The output of the word for its parameters, each behind a single space.
pub fn answer(alloc: Global, asked: &str) -> Answer {
    let mut parts = Vec::new(alloc);
    for part in asked.split(' ') {
        parts.push(part)?;
    }
    let mut to = Told::new(alloc);
    if is_answered(&mut to, parts.as_slice()) {
        to.answer()
    } else {
        Err(Trouble::Malformed)
    }
}

/// Whether the first part is a word with parameters like the others.
fn is_answered(to: &mut Told, parts: &[&str]) -> bool {
    match parts {
        [word] => words::alone(to, word),
        [word, part] => {
            words::of_name(to, word, part) || of_number(to, word, part) || of_bytes(to, word, part)
        }
        [word, first, second] => {
            of_number_and(to, word, first, second) || of_texts(to, word, first, second)
        }
        [word, mask, room, digits] if of_mask(to, word, mask, room, digits) => true,
        [word, number, others @ ..] => of_list(to, word, number, others),
        [] => false,
    }
}

/// Words with a number.
fn of_number(to: &mut Told, word: &str, number: &str) -> bool {
    match number.parse::<usize>() {
        Ok(number) => words::of_number(to, word, number),
        Err(_) => false,
    }
}

/// Words with bytes.
fn of_bytes(to: &mut Told, word: &str, digits: &str) -> bool {
    match bytes_of(to, digits) {
        Some(bytes) => words::of_bytes(to, word, bytes.as_slice()),
        None => false,
    }
}

/// Words with a number, and with another number or bytes.
fn of_number_and(to: &mut Told, word: &str, number: &str, part: &str) -> bool {
    let Ok(number) = number.parse::<usize>() else {
        return false;
    };
    let is_told = match part.parse::<usize>() {
        Ok(other) => words::of_numbers(to, word, number, other),
        Err(_) => false,
    };
    if is_told {
        return true;
    }
    match bytes_of(to, part) {
        Some(bytes) => words::of_room(to, word, number, bytes.as_slice()),
        None => false,
    }
}

/// Words with two byte strings.
fn of_texts(to: &mut Told, word: &str, first: &str, second: &str) -> bool {
    let Some(first) = bytes_of(to, first) else {
        return false;
    };
    match bytes_of(to, second) {
        Some(second) => words::of_texts(to, word, first.as_slice(), second.as_slice()),
        None => false,
    }
}

/// Words with a mask, the length of a slice, and bytes.
fn of_mask(to: &mut Told, word: &str, mask: &str, room: &str, digits: &str) -> bool {
    let (Ok(mask), Ok(room)) = (mask.parse::<u8>(), room.parse::<usize>()) else {
        return false;
    };
    match bytes_of(to, digits) {
        Some(bytes) => words::of_mask(to, word, mask, room, bytes.as_slice()),
        None => false,
    }
}

/// Words with a number and a list of byte strings.
fn of_list(to: &mut Told, word: &str, number: &str, parts: &[&str]) -> bool {
    let Ok(number) = number.parse::<u32>() else {
        return false;
    };
    match all_bytes_of(to, parts) {
        Some(texts) => words::of_list(to, word, number, texts.as_slice()),
        None => false,
    }
}

/// The bytes in hexadecimal digits, or none for `-`. `None` if they aren't such digits or memory ran out, which is
/// noted in `to`.
fn bytes_of(to: &mut Told, digits: &str) -> Option<Vec<u8>> {
    if digits == "-" {
        return Some(Vec::new(to.alloc()));
    }
    match hex::decode(to.alloc(), digits) {
        Ok(bytes) => Some(bytes),
        Err(FromHexError::OutOfMemory) => {
            to.out_of_memory();
            None
        }
        Err(_) => None,
    }
}

/// The bytes of each part.
fn all_bytes_of(to: &mut Told, parts: &[&str]) -> Option<Vec<Vec<u8>>> {
    let mut all = Vec::new(to.alloc());
    for part in parts {
        all.push(bytes_of(to, part)?).ok()?;
    }
    Some(all)
}
