//! The words of rows about types of one's own, with a value that is read, and what is written of it: each public
//! function with a `Told` writes a row's output to it, or the trouble for which there is none.
use crate::told::{PrintedError, Told};
use der_core::Result;
use examples::{
    Bytes, StoreError, Taken, copy_long_keys, read_authority_key, read_digest_info,
    read_dsa_algorithm, read_extension, read_pair, write_authority_key, write_digest_info,
    write_dsa_algorithm, write_extension, write_pair,
};

/// More octets than a row here has.
const ROOM: usize = 32;

/// The octets that were written to the front of a slice, or why none were.
fn written_again(to: &mut Told, out: &[u8], count: Result<usize>) {
    match count {
        Ok(count) => match out.get(..count) {
            Some(octets) => to.octets(octets),
            None => to.malformed(),
        },
        Err(error) => error.told(to),
    }
}

/// `extension HEX`: whether it is critical, and it again.
pub fn extension(to: &mut Told, bytes: &[u8]) {
    let mut out = [0; ROOM];
    match read_extension(bytes) {
        Ok(extension) => {
            to.yes_or_no(extension.critical);
            to.gap();
            let count = write_extension(&extension, &mut out);
            written_again(to, &out, count);
        }
        Err(error) => error.told(to),
    }
}

/// `digest-info HEX`: the digest, and it again.
pub fn digest_info(to: &mut Told, bytes: &[u8]) {
    let mut out = [0; ROOM];
    match read_digest_info(bytes) {
        Ok(info) => {
            to.digits(info.digest.as_bytes());
            to.gap();
            let count = write_digest_info(&info, &mut out);
            written_again(to, &out, count);
        }
        Err(error) => error.told(to),
    }
}

/// `dsa HEX`: whether it has parameters, and it again.
pub fn dsa_algorithm(to: &mut Told, bytes: &[u8]) {
    let mut out = [0; ROOM];
    match read_dsa_algorithm(bytes) {
        Ok(algorithm) => {
            to.yes_or_no(algorithm.parameters.is_some());
            to.gap();
            let count = write_dsa_algorithm(&algorithm, &mut out);
            written_again(to, &out, count);
        }
        Err(error) => error.told(to),
    }
}

/// `implicit-pair HEX`: the first number, and the pair again.
pub fn implicit_pair(to: &mut Told, bytes: &[u8]) {
    let mut out = [0; ROOM];
    match read_pair(bytes) {
        Ok(pair) => {
            to.octets(pair.first.as_bytes());
            to.gap();
            let count = write_pair(&pair, &mut out);
            written_again(to, &out, count);
        }
        Err(error) => error.told(to),
    }
}

/// `authority-key HEX`: whether each of its three parts is there, and it again.
pub fn authority_key(to: &mut Told, bytes: &[u8]) {
    let mut out = [0; ROOM];
    match read_authority_key(bytes) {
        Ok(it) => {
            to.yes_or_no(it.key_identifier.is_some());
            to.gap();
            to.yes_or_no(it.issuer.is_some());
            to.gap();
            to.yes_or_no(it.serial_number.is_some());
            to.gap();
            let count = write_authority_key(&it, &mut out);
            written_again(to, &out, count);
        }
        Err(error) => error.told(to),
    }
}

/// `key-store HEX`: the store of its keys of at least 2048 bits.
pub fn key_store(to: &mut Told, bytes: &[u8]) {
    let mut sink = Taken {
        octets: Vec::new(to.alloc()),
        refused: 0,
    };
    match copy_long_keys(to.alloc(), &mut Bytes { left: bytes }, &mut sink) {
        Ok(()) => to.digits(sink.octets.as_slice()),
        Err(StoreError::Format) => to.text("refused: no store"),
        Err(_) => to.out_of_memory(),
    }
}
