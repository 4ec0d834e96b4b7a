//! RSA private keys.
ghost use Rattle.std.specs.Prelude.{◌≡◌, ◌↔◌, ◌⊎◌, ⊤, IsSome, IsErrAnd};
ghost use Rattle.der_core.specs.Words.{Appends, Checks, Counts, RefusedAs, begins_with_any, bytes_of, sequence_tag};
ghost use Rattle.pkcs1.specs.Words.{AllocatesForKey, ListsNone, PrivateIsValid, PrivateRow, held_private_key, held_public_key, private_alike, private_as, private_key_read, private_key_with, private_law, private_printed, private_shortest, public_part};

mod der;
pub(crate) mod other_prime_info;
mod written;

use crate::key_numbers::{KeyFront, key_of};
use crate::public_key::{RsaPublicKey, RsaPublicKeyRef};
use crate::version::Version;
use der_core::{
    Contents, Counter, Decode, DecodeFront, DecodeValue, Encode, EncodeValue, Encoding, ErrorKind,
    Length, Prepend, Result, SequenceTag, TaggedBy, Uint, UintEncoding, UintRef, Writer,
};
use other_prime_info::{OtherPrimeInfos, read_other_primes, require_listed};
use std::alloc::{AllocError, Global};
use std::fmt;

/// An RSA private key (RFC 8017 A.1.2). A U holds a number, an O the other primes, if there are any. No relation
/// between the numbers is checked. The version isn't stored: it is `Multi` exactly if `other_prime_infos` is `Some`.
///
/// ```text
/// RSAPrivateKey ::= SEQUENCE {
///     version          Version,
///     modulus          INTEGER,
///     publicExponent   INTEGER,
///     privateExponent  INTEGER,
///     prime1           INTEGER,
///     prime2           INTEGER,
///     exponent1        INTEGER,
///     exponent2        INTEGER,
///     coefficient      INTEGER,
///     otherPrimeInfos  OtherPrimeInfos OPTIONAL
/// }
/// ```
#[derive(Copy, Drop)]
pub struct PrivateKeyOf<U, O> {
    /// The modulus n.
    pub modulus: U,
    /// The public exponent e.
    pub public_exponent: U,
    /// The private exponent d.
    pub private_exponent: U,
    /// The first prime p.
    pub prime1: U,
    /// The second prime q.
    pub prime2: U,
    /// The exponent of the first prime: d modulo p - 1.
    pub exponent1: U,
    /// The exponent of the second prime: d modulo q - 1.
    pub exponent2: U,
    /// The coefficient: the inverse of q modulo p.
    pub coefficient: U,
    /// The primes after the first two.
    pub other_prime_infos: Option<O>,
}

/// A private key with a list of its other primes. A key whose list is there but empty has no encoding: writing it
/// returns `Value` of SEQUENCE.
pub type RsaPrivateKey<U> = PrivateKeyOf<U, OtherPrimeInfos<U>>;

/// A private key that borrows its numbers.
pub type RsaPrivateKeyRef<'a> = RsaPrivateKey<UintRef<'a>>;

/// A private key that owns its numbers.
pub type RsaPrivateKeyOwned = RsaPrivateKey<Uint>;

impl<U: Copy, O: Copy> Clone for PrivateKeyOf<U, O> {
    ghost is_clone = { λ a b. b ≡ a };

    ghost is_infallible = { λ _. ⊤ };

    fn clone(&self) -> std::result::Result<PrivateKeyOf<U, O>, AllocError> {
        Ok(*self)
    }
}

impl<U, O> PrivateKeyOf<U, O> {
    /// The version: `Multi` exactly if there is a list of other primes.
    pub fn version(&self) -> Version
        ensures { (result ≡ Version.Multi) ↔ IsSome self.now.other_prime_infos }
    {
        if self.other_prime_infos.is_some() {
            Version::Multi
        } else {
            Version::TwoPrime
        }
    }
}

impl<U: UintEncoding> RsaPrivateKey<U> {
    /// The public key: the modulus and the public exponent.
    pub fn public_key(&self) -> RsaPublicKeyRef<'_>
        ensures { held_public_key bytes_of result ≡ public_part (held_private_key U.number self.now) }
    {
        RsaPublicKey {
            modulus: self.modulus.as_uint_ref(),
            public_exponent: self.public_exponent.as_uint_ref(),
        }
    }
}

impl<'a, U: UintEncoding> From<&'a RsaPrivateKey<U>> for RsaPublicKey<UintRef<'a>> {
    ghost from_gives = { λ key public.
        held_public_key bytes_of public ≡ public_part (held_private_key U.number key.now) };

    fn from(key: &'a RsaPrivateKey<U>) -> RsaPublicKey<UintRef<'a>> {
        key.public_key()
    }
}

impl<U: Encoding> Contents for RsaPrivateKey<U> {
    ghost Value = { PrivateRow U.Value };

    ghost value = { private_key_with U.value };

    ghost Spelling = { PrivateRow U.Spelling };

    ghost means = { private_as U.means };

    ghost written = { private_as U.written };

    ghost valid = { PrivateIsValid U.valid };

    ghost printed = { private_printed U.printed };

    ghost read_spelling = { private_key_read U.read_spelling };

    ghost read = { private_key_read U.read_front };

    ghost law = { private_law U.law };

    ghost shortest = { private_shortest U.shortest };

    ghost reads_alike = { private_alike U.reads_alike };

    ghost begins = { begins_with_any };
}

impl<U, O> TaggedBy for PrivateKeyOf<U, O> {
    type Marker = SequenceTag;
}

impl<'a, U: Decode<&'a [u8], Global>> DecodeValue<&'a [u8], Global> for RsaPrivateKey<U> {
    ghost may_allocate = { AllocatesForKey U.valid U.printed U.means U.Decode.may_allocate };

    ghost asks_memory = { λ _ _. tt };

    #[inline(always)]
    fn read_value(memory: Global, contents: &'a [u8]) -> Result<RsaPrivateKey<U>> {
        let (front, behind) = KeyFront::<U>::read_first(memory, contents)?;
        let (version, numbers) = front;
        let others = read_other_primes(memory, behind, version)?;
        Ok(key_of(numbers, others))
    }
}

impl<U: Encode> EncodeValue for RsaPrivateKey<U> {
    ghost refused = { λ tag. (tag ≡ sequence_tag) ⊎ U.Encode.refused tag };

    /// As of `EncodeValue`. An empty list of other primes is `Value` of SEQUENCE. Any other tag of `Value` is one that
    /// the type of the numbers names; `UintRef` and `Uint` name none.
    #[inline(always)]
    fn check_value(&self) -> Result<()>
        ensures checks { let s = private_as U.written (private_key_with U.value self.now) in
            Checks (PrivateIsValid U.valid s) result }
        ensures tag { RefusedAs (λ tag. (tag ≡ sequence_tag) ⊎ U.Encode.refused tag) result }
        ensures no_primes { ListsNone self.now.other_prime_infos
            → IsErrAnd result (λ e. e.kind ≡ ErrorKind.Value sequence_tag) }
    {
        require_listed(&self.other_prime_infos)?;
        self.row().check_value()
    }

    #[inline(always)]
    fn prepend_value<W: Prepend>(&self, writer: &mut W) {
        self.row().prepend_value(writer);
    }

    fn append_value<W: Writer>(&self, writer: &mut W) -> Result<()> {
        self.row().append_value(writer)
    }

    /// As of `EncodeValue`. `Value` is as of `check_value`.
    fn value_len(&self) -> Result<Length>
        ensures counts { let s = private_as U.written (private_key_with U.value self.now) in
            Counts (PrivateIsValid U.valid s) (private_printed U.printed s) result }
        ensures tag { RefusedAs (λ tag. (tag ≡ sequence_tag) ⊎ U.Encode.refused tag) result }
        ensures no_primes { ListsNone self.now.other_prime_infos
            → IsErrAnd result (λ e. e.kind ≡ ErrorKind.Value sequence_tag) }
    {
        self.check_value()?;
        let mut counter = Counter::new();
        self.prepend_value(&mut counter);
        counter.length()
    }

    /// As of `EncodeValue`. `Value` is as of `check_value`.
    fn encode_value<W: Writer>(&self, writer: &mut W) -> Result<()>
        ensures appends { let s = private_as U.written (private_key_with U.value self.now) in
            let octets = private_printed U.printed s in
            Appends (PrivateIsValid U.valid s) octets W.room W.written writer.old writer.new result }
        ensures tag { RefusedAs (λ tag. (tag ≡ sequence_tag) ⊎ U.Encode.refused tag) result }
        ensures kept { W.keeps writer.old writer.new }
        ensures no_primes { ListsNone self.now.other_prime_infos
            → IsErrAnd result (λ e. e.kind ≡ ErrorKind.Value sequence_tag) }
    {
        self.value_len()?;
        self.append_value(writer)
    }
}

impl<U: fmt::Debug, O> PrivateKeyOf<U, O> {
    /// Prints the name, the version, the modulus and the public exponent, but nothing secret.
    pub(crate) fn print<W: fmt::Write>(
        &self,
        name: &str,
        f: &mut fmt::Formatter<W>,
    ) -> fmt::Result {
        f.debug_struct(name)
            .field("version", &self.version())
            .field("modulus", &self.modulus)
            .field("public_exponent", &self.public_exponent)
            .finish_non_exhaustive()
    }
}

impl<U: fmt::Debug> fmt::Debug for RsaPrivateKey<U> {
    /// Prints the version, the modulus and the public exponent, but nothing secret.
    fn fmt<W: fmt::Write>(&self, f: &mut fmt::Formatter<W>) -> fmt::Result {
        self.print("RsaPrivateKey", f)
    }
}
