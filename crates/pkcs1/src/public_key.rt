//! RSA public keys. `try_from` reads one. It calls `from_der` of `der_core/src/decode.rt`. `record.rt` and `parts.rt`
//! there read the row of parts that `Record` names. `traits.rt` has the calls for owned keys.
ghost use Rattle.pkcs1.specs.Words.{public_row};

use der_core::{
    AsUintRef, Borrowed, Decode, Encode, EncodeInParts, Encoding, EqualByValue, NoMemory, Record,
    RowOperation, SequenceTag, TaggedBy, TryClone, Uint, UintEncoding, UintRef, write_only,
};
use pkcs1_params::{Error, Result};
use std::alloc::Global;

/// An RSA public key (RFC 8017 A.1.1). A `U` holds a number: see `RsaPublicKeyRef` and `RsaPublicKeyOwned`. No relation
/// between the numbers is checked.
///
/// ```text
/// RSAPublicKey ::= SEQUENCE {
///     modulus         INTEGER,
///     publicExponent  INTEGER
/// }
/// ```
#[derive(Clone, Copy, Debug, PartialEq, Eq, Drop)]
pub struct RsaPublicKey<U> {
    /// The modulus n.
    pub modulus: U,
    /// The public exponent e.
    pub public_exponent: U,
}

/// A public key that borrows its numbers.
pub type RsaPublicKeyRef<'a> = RsaPublicKey<UintRef<'a>>;

/// A public key that owns its numbers.
pub type RsaPublicKeyOwned = RsaPublicKey<Uint>;

impl<U> TaggedBy for RsaPublicKey<U> {
    type Marker = SequenceTag;
}

impl<U: Encoding> Record for RsaPublicKey<U> {
    type Fields = (U, (U, ()));

    ghost fields = { λ key. (key.modulus, (key.public_exponent, tt)) };

    fn from_fields(row: (U, (U, ()))) -> RsaPublicKey<U> {
        let (modulus, (public_exponent, ())) = row;
        RsaPublicKey {
            modulus,
            public_exponent,
        }
    }
}

impl<U: Encode> EncodeInParts for RsaPublicKey<U> {
    ghost use Rattle.std.specs.Prelude.{◌⊎◌};

    ghost refused = { λ tag. U.Encode.refused tag ⊎ (U.Encode.refused tag ⊎ ⊥) };

    #[inline(always)]
    fn with_row<O: RowOperation>(&self, operation: &mut O) -> O::Output {
        let exponent = (Borrowed(&self.public_exponent), ());
        operation.apply(&(Borrowed(&self.modulus), exponent))
    }
}

impl<U: EqualByValue> EqualByValue for RsaPublicKey<U> {
    ghost use Rattle.pkcs1.specs.Words.{public_key_decides};

    ghost decides = { λ a b.
        public_key_decides U.value U.eq U.decides a.modulus b.modulus a.public_exponent b.public_exponent };
}

impl<U: TryClone> TryClone for RsaPublicKey<U> {
    ghost never_out_of_memory = { λ key.
        U.never_out_of_memory key.modulus × U.never_out_of_memory key.public_exponent };

    fn try_clone(&self, alloc: Global) -> der_core::Result<RsaPublicKey<U>> {
        self.try_clone(alloc)
    }
}

impl<U: TryClone> RsaPublicKey<U> {
    ghost use Rattle.std.specs.Prelude.{◌≡◌, IfErr, IfOk, IsOk};
    ghost use Rattle.der_core.specs.declared.error.ErrorKind.{ErrorKind};

    /// The same key, or `OutOfMemory`, which never comes if both numbers are always copied.
    pub fn try_clone(&self, alloc: Global) -> der_core::Result<RsaPublicKey<U>>
        ensures ok { IfOk result (λ copy. public_row U.value copy ≡ public_row U.value self.now) }
        ensures err { IfErr result (λ e. e.kind ≡ ErrorKind.OutOfMemory) }
        ensures may_allocate { U.never_out_of_memory self.now.modulus
            → U.never_out_of_memory self.now.public_exponent → IsOk result }
    {
        Ok(RsaPublicKey {
            modulus: self.modulus.try_clone(alloc)?,
            public_exponent: self.public_exponent.try_clone(alloc)?,
        })
    }
}

impl<'a> TryFrom<&'a [u8]> for RsaPublicKey<UintRef<'a>> {
    ghost use Rattle.der_core.specs.Words.{bytes_of, ok_of};
    ghost use Rattle.pkcs1.specs.Words.{held_public_key, rsa_public_key};
    ghost use Rattle.pkcs1_params.specs.Words.{AnswersAsn1};
    ghost use Rattle.standard.specs.Statement.{Decodes, PublicKeyEncoding};

    type Error = Error;

    /// Reads a public key, and allocates nothing. Ok exactly if the whole slice encodes one: then that key. Err: the
    /// first fault of a public key.
    fn try_from(bytes: &'a [u8]) -> Result<RsaPublicKey<UintRef<'a>>>
        ensures read { Decodes PublicKeyEncoding bytes.now (ok_of (held_public_key bytes_of) result) }
        ensures exact { AnswersAsn1 (held_public_key bytes_of) (rsa_public_key bytes.now) result }
    {
        Ok(RsaPublicKey::from_der(NoMemory, bytes)?)
    }
}

impl<U: AsUintRef> RsaPublicKey<U> {
    ghost use Rattle.std.specs.Prelude.{◌≡◌};
    ghost use Rattle.der_core.specs.Words.{bytes_of};
    ghost use Rattle.pkcs1.specs.Words.{held_public_key};

    /// The same key over numbers that it borrows, whatever the type of its numbers.
    pub fn as_key_ref(&self) -> RsaPublicKeyRef<'_>
        ensures { held_public_key bytes_of result ≡ held_public_key U.number self.now }
    {
        RsaPublicKey {
            modulus: self.modulus.as_uint_ref(),
            public_exponent: self.public_exponent.as_uint_ref(),
        }
    }
}

impl<U: UintEncoding> RsaPublicKey<U> {
    ghost use Rattle.std.specs.Prelude.{⊤, length, IfErr};
    ghost use Rattle.der_core.specs.Words.{ok_of};
    ghost use Rattle.pkcs1.specs.Words.{Refuses, held_public_key};
    ghost use Rattle.standard.specs.Statement.{Encodes, PublicKeyEncoding};

    /// Writes the key's only encoding, which is that of no other key, to the front of a slice, and returns its length.
    /// The bytes behind it stay as they were. After an error all of the slice does. It is `Overflow` exactly if the
    /// encoding is longer than `Length::MAX`, else `NoRoom` exactly if it is longer than the slice.
    pub fn encode_key(&self, out: &mut [u8]) -> Result<usize>
        ensures written { let key = held_public_key U.number self.now in
            Encodes PublicKeyEncoding key out.old out.new (ok_of (λ n. n) result) }
        ensures err { let key = held_public_key U.number self.now in
            IfErr result (Refuses (λ _. ⊤) PublicKeyEncoding key (length out.old)) }
    {
        Ok(write_only(&self.as_key_ref(), out)?)
    }
}
