//! Laws of the grammars of keys and parameters: functions that do nothing, each with a law as its contract.
ghost use Rattle.std.specs.Prelude.{◌≡◌, ℕ, List, Decides, None};
ghost use Rattle.pkcs1.specs.Words.{AreDelimited, AreStated, held_other_primes, held_public_key, held_view, private_stated, public_stated, rsa_private_key, rsa_public_key, viewed_encoding};
ghost use Rattle.der_core.specs.Words.{AllocatesAtFront, AreBytes, Excludes, bytes_of, value_in};
ghost use Rattle.pkcs1_params.specs.Words.{FaultsTell, oaep_of, pss_of};
ghost use Rattle.standard.specs.Statement.{AtMostOne, Decodes, PrivateKey, PrivateKeyEncoding, PublicKeyEncoding, SameByShortest, OaepEncoding, PssEncoding};
ghost use Rattle.der_core.specs.declared.integer.uint.UintRef as numbers;
ghost use Rattle.spki_core.specs.Words.{any_of};
ghost use Rattle.spki_core.specs.declared.any.AnyRef as anys;
ghost use Rattle.spki_core.specs.declared.object_identifier.ObjectIdentifier as oids;
ghost use Rattle.pkcs1_params.specs.declared.error.Error as errors;
ghost use Rattle.pkcs1_params.specs.declared.oaep.OaepParamsOf as oaep_params;
ghost use Rattle.pkcs1_params.specs.declared.pss.PssParamsOf as pss_params;
ghost use Rattle.pkcs1.specs.declared.other_primes.OtherPrimes as primes;
ghost use Rattle.pkcs1.specs.declared.public_key.RsaPublicKey as public_keys;
ghost use Rattle.pkcs1.specs.declared.view.RsaPrivateKeyView as views;

use crate::other_primes::OtherPrimes;
use crate::private_key::RsaPrivateKey;
use crate::public_key::RsaPublicKey;
use crate::view::RsaPrivateKeyView;
use der_core::{Decode, Encoding, Memory, Uint, UintRef};
use pkcs1_params::{Error, RsaOaepParams, RsaPssParams};
use spki_core::{Any, AnyRef};
use std::alloc::Global;

/// No encoding is empty or a proper prefix of another one of the same type, and each means one value.
pub fn lemma_encodings_are_delimited()
    ensures public { AreDelimited PublicKeyEncoding }
    ensures private { AreDelimited PrivateKeyEncoding }
    ensures pss { AreDelimited PssEncoding }
    ensures oaep { AreDelimited OaepEncoding }
{}

/// The functions that tell the keys of whole slices give a key exactly of the bytes that encode one, in the words of
/// the statement, and this one. Each of their faults is about the bytes.
pub fn lemma_keys_decode()
    ensures public { (bytes : List ℕ) → AreBytes bytes
        → Decodes PublicKeyEncoding bytes (value_in (rsa_public_key bytes)) }
    ensures private { (bytes : List ℕ) → AreBytes bytes
        → Decodes PrivateKeyEncoding bytes (value_in (rsa_private_key bytes)) }
    ensures public_faults { FaultsTell rsa_public_key }
    ensures private_faults { FaultsTell rsa_private_key }
{}

/// Reading a key that borrows its numbers never asks for memory if it is a public one, whatever the bytes are, or if the
/// bytes encode a private key of two primes: by `from_der`, and by each other call that reads such a type.
pub fn lemma_borrowed_keys_take_no_memory<M: Memory>()
    ensures public { (bytes : List ℕ)
        → AllocatesAtFront ⟦<RsaPublicKey<UintRef<'static>> as Decode<&'static [u8], M>>⟧.may_allocate bytes → ⊥ }
    ensures two_primes { (key : PrivateKey) (bytes : List ℕ)
        → key.other_primes ≡ None → PrivateKeyEncoding key bytes
        → AllocatesAtFront ⟦<RsaPrivateKey<UintRef<'static>> as Decode<&'static [u8], Global>>⟧.may_allocate bytes → ⊥ }
{}

/// A key has at most one encoding.
pub fn lemma_keys_have_one_encoding()
    ensures public { AtMostOne PublicKeyEncoding }
    ensures private { AtMostOne PrivateKeyEncoding }
{}

/// No bytes encode both a public and a private key, or both a key and parameters.
pub fn lemma_types_exclude_each_other()
    ensures keys { Excludes PublicKeyEncoding PrivateKeyEncoding }
    ensures public_pss { Excludes PublicKeyEncoding PssEncoding }
    ensures public_oaep { Excludes PublicKeyEncoding OaepEncoding }
    ensures private_pss { Excludes PrivateKeyEncoding PssEncoding }
    ensures private_oaep { Excludes PrivateKeyEncoding OaepEncoding }
{}

/// Two encodings of keys mean the same key exactly if the shortest encodings of what they mean are the same bytes.
pub fn lemma_same_keys_have_the_same_encoding()
    ensures public { SameByShortest PublicKeyEncoding }
    ensures private { SameByShortest PrivateKeyEncoding }
{}

/// The borrowed and the owned form of a type have the encodings of the statement: so a clause of `Decode` or `Encode`
/// at one of these types is about the encodings that the other laws here are about.
pub fn lemma_forms_share_the_grammars()
    ensures public { let borrowed = ⟦<RsaPublicKey<UintRef<'static>> as Encoding>⟧ in
        let owned = ⟦<RsaPublicKey<Uint> as Encoding>⟧ in
        AreStated borrowed.valid borrowed.printed borrowed.means public_stated PublicKeyEncoding
        × AreStated owned.valid owned.printed owned.means public_stated PublicKeyEncoding }
    ensures private { let borrowed = ⟦<RsaPrivateKey<UintRef<'static>> as Encoding>⟧ in
        let owned = ⟦<RsaPrivateKey<Uint> as Encoding>⟧ in
        AreStated borrowed.valid borrowed.printed borrowed.means private_stated PrivateKeyEncoding
        × AreStated owned.valid owned.printed owned.means private_stated PrivateKeyEncoding }
    ensures pss { let borrowed = ⟦<RsaPssParams<AnyRef<'static>> as Encoding>⟧ in
        let owned = ⟦<RsaPssParams<Any> as Encoding>⟧ in
        AreStated borrowed.valid borrowed.printed borrowed.means (λ p. p) PssEncoding
        × AreStated owned.valid owned.printed owned.means (λ p. p) PssEncoding }
    ensures oaep { let borrowed = ⟦<RsaOaepParams<AnyRef<'static>> as Encoding>⟧ in
        let owned = ⟦<RsaOaepParams<Any> as Encoding>⟧ in
        AreStated borrowed.valid borrowed.printed borrowed.means (λ p. p) OaepEncoding
        × AreStated owned.valid owned.printed owned.means (λ p. p) OaepEncoding }
{}

/// Errors are equal exactly if they are the same, with the same kind in `Asn1`.
pub fn lemma_errors_compare_by_value()
    ensures { (a b : errors.Error) → Decides (⟦<Error as PartialEq>⟧.eq a b) (a ≡ b) }
{}

/// The bytes of a view of a private key encode the key that it holds.
#[tactic(auto, using(crate::specs::ViewParts::viewed_encodes))]
pub fn lemma_views_hold_what_they_encode()
    ensures { (view : views.RsaPrivateKeyView) → PrivateKeyEncoding (held_view view) (viewed_encoding view) }
{}

/// A clone of a borrowing type means the same as the original.
pub fn lemma_clones_mean_the_same()
    ensures public { (a b : public_keys.RsaPublicKey numbers.UintRef)
        → ⟦<RsaPublicKey<UintRef<'static>> as Clone>⟧.is_clone a b
        → held_public_key bytes_of b ≡ held_public_key bytes_of a }
    ensures view { (a b : views.RsaPrivateKeyView)
        → ⟦<RsaPrivateKeyView<'static> as Clone>⟧.is_clone a b → held_view b ≡ held_view a }
    ensures others { (a b : primes.OtherPrimes)
        → ⟦<OtherPrimes<'static> as Clone>⟧.is_clone a b → held_other_primes b ≡ held_other_primes a }
    ensures any { (a b : anys.AnyRef) → ⟦<AnyRef<'static> as Clone>⟧.is_clone a b → any_of b ≡ any_of a }
    ensures pss { (a b : pss_params.PssParamsOf oids.ObjectIdentifier anys.AnyRef)
        → ⟦<RsaPssParams<AnyRef<'static>> as Clone>⟧.is_clone a b → pss_of b ≡ pss_of a }
    ensures oaep { (a b : oaep_params.OaepParamsOf oids.ObjectIdentifier anys.AnyRef)
        → ⟦<RsaOaepParams<AnyRef<'static>> as Clone>⟧.is_clone a b → oaep_of b ≡ oaep_of a }
{}
