//! Private keys.
ghost use Rattle.std.specs.Prelude.{length, drop, ◌≡◌, ◌≢◌, ◌≤◌, List, None};
ghost use Rattle.der_core.specs.Words.{bytes_of, limit};
ghost use Rattle.pkcs1.specs.Words.{held_other_prime, held_view, listed_others, primes_encoded, rsa_private_key};
ghost use Rattle.pkcs1_c.specs.Words.{ArePlaced, DecodesPrivateKey, EncodingIfHeld, HasPrivateNumbers, HoldsPrivateKey, IsErrorOf, IsStatusOf, PrivateKeyError, WritesOrTells, numbers_of_prime, octets_of_prime, private_key_seen};
ghost use Rattle.standard.specs.Statement.{Decodes, OtherPrime as Prime, PrivateKeyEncoding};

use crate::bytes::Bytes;
use crate::given_key::GivenKey;
use crate::status::{OK, OTHER_PRIMES, status};
use crate::written::write_encoding;
use der_core::Length;
use pkcs1::{OtherPrimeInfo, RsaPrivateKeyView, UintRef, first_other_prime};

/// The numbers of a private key, most significant byte first.
#[repr(C)]
#[derive(Clone, Copy, Drop)]
pub struct PrivateKey<'a> {
    /// The modulus n.
    pub modulus: &'a [u8],
    /// The public exponent e.
    pub public_exponent: &'a [u8],
    /// The private exponent d.
    pub private_exponent: &'a [u8],
    /// The first prime p.
    pub prime1: &'a [u8],
    /// The second prime q.
    pub prime2: &'a [u8],
    /// The exponent of the first prime.
    pub exponent1: &'a [u8],
    /// The exponent of the second prime.
    pub exponent2: &'a [u8],
    /// The coefficient.
    pub coefficient: &'a [u8],
    /// How many primes there are after the first two.
    pub other_primes: usize,
}

/// A prime after the first two.
#[repr(C)]
#[derive(Clone, Copy, Drop)]
pub struct OtherPrime<'a> {
    /// The prime.
    pub prime: &'a [u8],
    /// Its exponent.
    pub exponent: &'a [u8],
    /// Its coefficient.
    pub coefficient: &'a [u8],
}

/// The C struct of a prime.
#[tactic(auto, using(crate::proofs::HeldKeys::octets_held))]
fn to_c_other_prime<'a>(info: &OtherPrimeInfo<UintRef<'a>>) -> OtherPrime<'a>
    ensures { numbers_of_prime result ≡ octets_of_prime (held_other_prime bytes_of info.now) }
{
    OtherPrime {
        prime: info.prime.as_bytes(),
        exponent: info.exponent.as_bytes(),
        coefficient: info.coefficient.as_bytes(),
    }
}

/// The C struct of a key.
#[tactic(auto, using(crate::proofs::HeldKeys::octets_held))]
#[inline(always)]
pub(crate) fn to_c_key<'a>(view: &RsaPrivateKeyView<'a>) -> PrivateKey<'a>
    ensures { HoldsPrivateKey result (held_view view.now) }
{
    PrivateKey {
        modulus: view.modulus().as_bytes(),
        public_exponent: view.public_exponent().as_bytes(),
        private_exponent: view.private_exponent().as_bytes(),
        prime1: view.prime1().as_bytes(),
        prime2: view.prime2().as_bytes(),
        exponent1: view.exponent1().as_bytes(),
        exponent2: view.exponent2().as_bytes(),
        coefficient: view.coefficient().as_bytes(),
        other_primes: view.other_primes().remaining(),
    }
}

/// The encodings of a key's other primes, one behind the other.
#[inline(always)]
pub(crate) fn to_c_list<'a>(view: &RsaPrivateKeyView<'a>) -> Bytes<'a>
    ensures { result.octets.now ≡ primes_encoded (listed_others (held_view view.now).other_primes) }
{
    Bytes {
        octets: view.other_primes().as_bytes(),
    }
}

/// Decodes a private key, and allocates nothing. `OK` exactly if the octets encode one: then `key` holds it, in parts
/// of `encoding`, with the number of its other primes, and `listed` their encodings, one behind the other. Else the
/// status of the first fault of a private key, and both are as they were.
#[unsafe(no_mangle)]
pub extern "C" fn pkcs1_c_private_key_decode<'a>(
    encoding: &'a [u8],
    key: &mut PrivateKey<'a>,
    listed: &mut Bytes<'a>,
) -> u32
    ensures ok { result ≡ OK → DecodesPrivateKey encoding.now key.new listed.new.octets.now }
    ensures rejected { result ≢ OK → Decodes PrivateKeyEncoding encoding.now None }
    ensures exact { IsStatusOf (rsa_private_key encoding.now) result }
    ensures unchanged { result ≢ OK → (key.new ≡ key.old) × (listed.new ≡ listed.old) }
{
    match RsaPrivateKeyView::try_from(encoding) {
        Ok(view) => {
            *key = to_c_key(&view);
            *listed = to_c_list(&view);
            OK
        }
        Err(error) => status(&error),
    }
}

/// Puts the primes whose encodings are `listed`, one behind the other, into `others`, as many as fit. The rest of it is
/// as it was. Nothing is promised of other octets, at which it stops, or of more octets than the limit.
#[unsafe(no_mangle)]
pub extern "C" fn pkcs1_c_other_primes<'a>(listed: &'a [u8], others: &mut [OtherPrime<'a>])
    ensures placed { (primes : List Prime) → length listed.now ≤ limit → listed.now ≡ primes_encoded primes
        → ArePlaced primes others.new × (drop (length primes) others.new ≡ drop (length primes) others.old) }
{
    if listed.len() > Length::MAX.to_usize() {
        return;
    }
    let mut rest = listed;
    for i in 0..others.len() {
        match first_other_prime(rest) {
            Ok((prime, behind)) => {
                others[i] = to_c_other_prime(&prime);
                rest = behind;
            }
            Err(_) => return,
        }
    }
}

/// Puts the only encoding of a private key to the front of `out`, and allocates nothing. `len` and the rest of `out`
/// are as of `pkcs1_c_public_key_encode`. `NO_ROOM` exactly if the key has an encoding, and `out` is shorter.
/// `OTHER_PRIMES`: there are more or fewer other primes than `key` says. Else the status of the first number that can't
/// be held, as there; the eight come before other primes. Else `OVERFLOW`: the key has no encoding within the limit.
#[unsafe(no_mangle)]
pub extern "C" fn pkcs1_c_private_key_encode(
    key: &PrivateKey<'_>,
    others: &[OtherPrime<'_>],
    out: &mut [u8],
    len: &mut usize,
) -> u32
    ensures writes { let Encoding = EncodingIfHeld (HasPrivateNumbers key.now others.now) PrivateKeyEncoding in
        WritesOrTells Encoding (private_key_seen key.now others.now) out.old out.new len.old len.new result }
    ensures exact { IsErrorOf (PrivateKeyError key.now others.now (length out.old)) result }
{
    if key.other_primes != others.len() {
        return OTHER_PRIMES;
    }
    match &GivenKey::of(key, others) {
        Ok(key) => write_encoding(key, out, len),
        Err(failure) => status(failure),
    }
}
