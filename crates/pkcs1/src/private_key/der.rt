//! Decoding private keys from whole slices; encoding them into slices.
ghost use Rattle.std.specs.Prelude.{◌≡◌, length, List, ℕ, IfOk, IfErr, IsOk, IsErrAnd, None, Some};
ghost use Rattle.der_core.specs.Words.{AllocatesAtFront, Tlv, ok_of, sequence_octet, sequence_tag};
ghost use Rattle.pkcs1.specs.Words.{AllocatesForKey, IsPrivateKey, ListsNone, PrivateRow, PrivateSpells, Refuses, Rejects, held_private_key, others_in, private_key_with, rsa_private_key, whole_private_key};
ghost use Rattle.pkcs1_params.specs.Words.{AnswersAsn1OrAsks, IsAsn1};
ghost use Rattle.standard.specs.Statement.{Decodes, Encodes, PrivateKeyEncoding};
ghost use Rattle.standard.specs.Statement as standard;

use super::RsaPrivateKey;
use super::other_prime_info::require_listed;
use der_core::{Decode, Encode, ErrorKind, OctetStringRef, Uint, UintEncoding, UintRef};
use std::alloc::Global;

impl<U> RsaPrivateKey<U> {
    ghost use Rattle.der_core.specs.Words.{octets_of};

    /// Reads a private key from the octets of an OCTET STRING. Ok only if all of them encode one: then that key. Err:
    /// the first fault of a private key, or `OutOfMemory`, which comes where it may for `decode_key`, or where the
    /// numbers may ask for memory. A key of two primes is always read, if the numbers never ask for it.
    pub fn from_octet_string<'a>(
        alloc: Global,
        octets: OctetStringRef<'a>,
    ) -> crate::Result<RsaPrivateKey<U>>
    where
        U: Decode<&'a [u8], Global>,
        ensures ok { let spells = PrivateSpells U.valid U.printed U.means in
            IfOk result (λ key. Decodes spells (octets_of octets.entry) (Some (private_key_with U.value key))) }
        ensures err { let may = AllocatesForKey U.valid U.printed U.means U.Decode.may_allocate in
            let asked = AllocatesAtFront (Tlv sequence_octet may) (octets_of octets.entry) in
            IfErr result (Rejects (PrivateSpells U.valid U.printed U.means) (octets_of octets.entry) asked) }
        ensures exact { let may = AllocatesForKey U.valid U.printed U.means U.Decode.may_allocate in
            let asked = AllocatesAtFront (Tlv sequence_octet may) (octets_of octets.entry) in
            let given = whole_private_key U.read_front (octets_of octets.entry) in
            AnswersAsn1OrAsks (private_key_with U.value) given asked result }
        ensures two_primes { ((encoding : List ℕ) → U.Decode.may_allocate encoding → ⊥)
            → (key : PrivateRow U.Value) → others_in key ≡ None
            → PrivateSpells U.valid U.printed U.means key (octets_of octets.entry) → IsOk result }
    {
        Ok(RsaPrivateKey::from_der(alloc, octets.as_bytes())?)
    }
}

impl<'a> RsaPrivateKey<UintRef<'a>> {
    ghost use Rattle.der_core.specs.Words.{bytes_of};
    ghost use Rattle.pkcs1.specs.Words.{MayAllocate};

    /// Reads a private key. Ok only if the whole slice encodes one: then that key. Err: the first fault of a private
    /// key, or `OutOfMemory`, which comes only if a SEQUENCE that begins with another prime follows the eight numbers.
    /// So a key of two primes is always read.
    pub fn decode_key(alloc: Global, bytes: &'a [u8]) -> crate::Result<RsaPrivateKey<UintRef<'a>>>
        ensures ok { let held = held_private_key bytes_of in
            IfOk result (λ key. Decodes PrivateKeyEncoding bytes.now (Some (held key))) }
        ensures err { IfErr result (Rejects PrivateKeyEncoding bytes.now (MayAllocate bytes.now)) }
        ensures exact { let held = held_private_key bytes_of in
            AnswersAsn1OrAsks held (rsa_private_key bytes.now) (MayAllocate bytes.now) result }
        ensures two_primes { (key : standard.PrivateKey)
            → key.other_primes ≡ None → PrivateKeyEncoding key bytes.now → IsOk result }
    {
        Ok(RsaPrivateKey::from_der(alloc, bytes)?) // its numbers are parts of the bytes
    }
}

impl RsaPrivateKey<Uint> {
    ghost use Rattle.der_core.specs.Words.{own_bytes_of};
    ghost use Rattle.pkcs1.specs.Words.{OwnedKeyAllocates};

    /// Reads a private key, whose numbers it copies. Ok only if the whole slice encodes one: then that key. Err: the
    /// first fault of a private key, or `OutOfMemory`, which comes only if the slice begins with a SEQUENCE that begins
    /// with a version and a number.
    pub fn decode_owned_key(alloc: Global, bytes: &[u8]) -> crate::Result<RsaPrivateKey<Uint>>
        ensures ok { let held = held_private_key own_bytes_of in
            IfOk result (λ key. Decodes PrivateKeyEncoding bytes.now (Some (held key))) }
        ensures err { IfErr result (Rejects PrivateKeyEncoding bytes.now (OwnedKeyAllocates bytes.now)) }
        ensures exact { let asked = OwnedKeyAllocates bytes.now in
            AnswersAsn1OrAsks (held_private_key own_bytes_of) (rsa_private_key bytes.now) asked result }
    {
        Ok(RsaPrivateKey::from_der(alloc, bytes)?) // its numbers are copies
    }
}

impl<U: Encode + UintEncoding> RsaPrivateKey<U> {
    /// Writes the key's only encoding, which is that of no other key, to the front of a slice, and returns its length.
    /// The bytes behind it stay as they were. After an error all of the slice does. It is `Value` of SEQUENCE exactly
    /// if the list of other primes is there but empty, which is looked at first, `Overflow` exactly if the encoding is
    /// longer than `Length::MAX`, else `NoRoom` exactly if it is longer than the slice.
    pub fn encode_key(&self, out: &mut [u8]) -> crate::Result<usize>
        ensures written { let key = held_private_key U.number self.now in
            Encodes PrivateKeyEncoding key out.old out.new (ok_of (λ n. n) result) }
        ensures err { let key = held_private_key U.number self.now in
            IfErr result (Refuses IsPrivateKey PrivateKeyEncoding key (length out.old)) }
        ensures no_primes { ListsNone self.now.other_prime_infos
            → IsErrAnd result (IsAsn1 (λ e. e.kind ≡ ErrorKind.Value sequence_tag)) }
    {
        require_listed(&self.other_prime_infos)?;
        Ok(self.encode_into(out)?)
    }
}
