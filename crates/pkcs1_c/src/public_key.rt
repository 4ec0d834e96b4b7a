//! Public keys.
ghost use Rattle.std.specs.Prelude.{◌≡◌, ◌≢◌, length, IfOk, IfErr, OnOk, Some, None};
ghost use Rattle.der_core.specs.Words.{bytes_of};
ghost use Rattle.pkcs1.specs.Words.{held_public_key, rsa_public_key};
ghost use Rattle.pkcs1_c.specs.Words.{EncodingIfHeld, HasPublicNumbers, HoldsPublicKey, IsErrorOf, IsStatusOf, NoStatus, NumbersError, PublicKeyError, WritesOrTells, public_key_seen, status_of, two_numbers};
ghost use Rattle.standard.specs.Statement as statement;
ghost use Rattle.standard.specs.Statement.{Decodes, PublicKeyEncoding};

use crate::numbers::number;
use crate::status::{OK, status};
use crate::written::write_encoding;
use pkcs1::{RsaPublicKey, RsaPublicKeyRef, UintRef};

/// The numbers of a public key, most significant byte first.
#[repr(C)]
#[derive(Clone, Copy, Drop)]
pub struct PublicKey<'a> {
    /// The modulus n.
    pub modulus: &'a [u8],
    /// The public exponent e.
    pub public_exponent: &'a [u8],
}

/// Decodes a public key. `OK`, which is 0, exactly if the octets encode one: then `key` holds it, in parts of
/// `encoding`. Else the status of the first fault of a public key, and `key` is as it was.
#[unsafe(no_mangle)]
pub extern "C" fn pkcs1_c_public_key_decode<'a>(encoding: &'a [u8], key: &mut PublicKey<'a>) -> u32
    ensures ok { result ≡ OK
        → (v : statement.PublicKey) × Decodes PublicKeyEncoding encoding.now (Some v) × HoldsPublicKey key.new v }
    ensures rejected { result ≢ OK → Decodes PublicKeyEncoding encoding.now None }
    ensures exact { IsStatusOf (rsa_public_key encoding.now) result }
    ensures unchanged { result ≢ OK → key.new ≡ key.old }
{
    match RsaPublicKeyRef::try_from(encoding) {
        Ok(read) => {
            key.modulus = read.modulus.as_bytes();
            key.public_exponent = read.public_exponent.as_bytes();
            OK
        }
        Err(error) => status(&error),
    }
}

/// The key with these numbers.
fn from_c_key<'a>(key: &PublicKey<'a>) -> pkcs1::Result<RsaPublicKey<UintRef<'a>>>
    ensures ok { IfOk result (λ made. held_public_key bytes_of made ≡ public_key_seen key.now) }
    ensures held { OnOk result (NoStatus (NumbersError (two_numbers key.now))) }
    ensures err { IfErr result (λ e. NumbersError (two_numbers key.now) (status_of e)) }
{
    Ok(RsaPublicKey {
        modulus: number(key.modulus)?,
        public_exponent: number(key.public_exponent)?,
    })
}

/// Puts the only encoding of a public key to the front of `out`. Its numbers may have zeros in front. `OK`: `len` is
/// the length of the encoding, and the rest of `out` is as it was. Else `out` is as it was, and so is `len`, but of
/// `NO_ROOM` it is the length that is needed. `NO_ROOM` exactly if the key has an encoding, and `out` is shorter. Else
/// the status of the first number that can't be held: `LENGTH` if it has no octets, `OVERFLOW` if it is longer than the
/// limit. Else `OVERFLOW`: the encoding is.
#[unsafe(no_mangle)]
pub extern "C" fn pkcs1_c_public_key_encode(
    key: &PublicKey<'_>,
    out: &mut [u8],
    len: &mut usize,
) -> u32
    ensures writes { let Encoding = EncodingIfHeld (HasPublicNumbers key.now) PublicKeyEncoding in
        WritesOrTells Encoding (public_key_seen key.now) out.old out.new len.old len.new result }
    ensures exact { IsErrorOf (PublicKeyError key.now (length out.old)) result }
{
    match from_c_key(key) {
        Ok(key) => write_encoding(&key, out, len),
        Err(failure) => status(&failure),
    }
}
