//! How parameters are read of bytes, and their fields printed. `parameter_answers.rt` calls it.
ghost use Rattle.std.specs.Prelude.{◌≡◌, ◌≤◌, ℕ, List, ◌++◌, ◌↔◌, length, Decides, IsTrue, OnOk, IfOk, IfSome, IfNone, IsErrAnd, option_map};
ghost use Rattle.der_core.specs.Words.{Spells};
ghost use Rattle.spki_core.specs.Words.{algorithm_of, any_of, mask_gen_of, own_octets_of, spelled_from, spelled_to};
ghost use Rattle.pkcs1_params.specs.Words.{EncodingOfFields, IsEncoded, encodings_in, oaep_of, oaep_record, pss_of, pss_record};
ghost use Rattle.standard.specs.Statement.{Decodes, Defaults, Field, IsOaep, IsPss, IsShortest, Lists, OaepParameters, PssParameters, limit, longest, oaep_fields, pss_fields};
ghost use Rattle.pkcs1_program.specs.Words.{IsMemoryError, any_digits, identifier_digits, plain_digits, bracketed_digits, mask_digits, hash_and_mask_fields, spelling_fields, pss_answer, oaep_answer};

use crate::digits::{put_field, put_hex, put_number};
use der_core::{Encode, ErrorKind, equal};
use pkcs1::{Error, ObjectIdentifier, RsaOaepParamsRef, RsaPssParamsRef};
use spki_core::{AlgorithmIdentifier, AlgorithmIdentifierRef, AnyRef};
use std::alloc::{AllocError, Global};

/// What the output for a line needs of RSASSA-PSS and RSAES-OAEP parameters.
pub trait Parameters<'a>: Encode + Drop + Sized {
    /// What the parameters mean.
    ghost Params: { Type 0 };

    /// What a value means.
    ghost params: { Self → Params };

    /// Which parameters may be encoded.
    ghost Is: { Params → Type 0 };

    /// The fields of their SEQUENCE.
    ghost fields_of: { Params → List Field };

    /// The output for parameters, given how many of their fields have their defaults, and their encoding.
    ghost answer_of: { Params → ℕ → List ℕ → List ℕ };

    /// Decodes the parameters, or returns `None`.
    fn read(encoding: &'a [u8]) -> Option<Self>
        ensures { Decodes (EncodingOfFields Is fields_of) encoding.now (option_map params result) };

    /// Whether the bytes are the shortest encoding of some parameters.
    fn is_strict(encoding: &'a [u8]) -> bool
        ensures { IsTrue result ↔ IsEncoded (IsShortest (EncodingOfFields Is fields_of)) encoding.now };

    /// Whether both mean the same parameters.
    fn is_same(&self, other: &Self) -> bool
        ensures { Decides result (params self.now ≡ params other.now) };

    /// All encodings, ordered by mask, or `None` if the longest of them is longer than `Length::MAX`.
    fn all_encodings(&self, alloc: Global) -> Result<Option<Vec<Vec<u8>>>, AllocError>
        ensures listed { IfOk result (λ found. Lists Is fields_of (params self.now) (option_map encodings_in found)) }
        ensures fit { let longest = longest (fields_of (params self.now)) in
            IfOk result (λ found. IfSome found (λ _. length longest ≤ limit)) };

    /// How many fields have their defaults.
    fn defaults(&self) -> u8
        ensures { Defaults (fields_of (params self.now)) result };

    /// Appends the output for the parameters to `out`; `again` is their encoding.
    fn put(&self, defaults: u8, again: &[u8], out: &mut Vec<u8>) -> Result<(), AllocError>
        ensures { OnOk result (out.new.items ≡ out.old.items ++ answer_of (params self.now) defaults again.now) };

    /// The encodings of a value for `Encode` are those of the parameters.
    ghost encodings_are: { (value : Self) (encoding : List ℕ)
        → Spells Self.valid Self.printed Self.means (Self.value value) encoding
        ↔ EncodingOfFields Is fields_of (params value) encoding };
}

/// Whether the error is out of memory.
fn is_memory_error(error: &Error) -> bool
    ensures { IsTrue result ↔ IsMemoryError error.now }
{
    match error {
        Error::Asn1(error) => error.kind == ErrorKind::OutOfMemory,
        _ => false,
    }
}

/// Maps an error to `None`, but out of memory to an `AllocError`.
fn found(encodings: pkcs1::Result<Vec<Vec<u8>>>) -> Result<Option<Vec<Vec<u8>>>, AllocError>
    ensures some { IfOk result (λ found. IfSome found (λ list. encodings ≡ Ok list)) }
    ensures none { IfOk result (λ found. IfNone found (IsErrAnd encodings (λ e. IsMemoryError e → ⊥))) }
{
    match encodings {
        Ok(encodings) => Ok(Some(encodings)),
        Err(error) => {
            if is_memory_error(&error) {
                return Err(AllocError);
            }
            Ok(None)
        }
    }
}

/// The output for absent parameters.
const ABSENT: &[u8] = b"-";

/// A mask generation function.
type MaskGenRef<'a> = AlgorithmIdentifier<AlgorithmIdentifierRef<'a>>;

/// Appends the tag and the contents to `out`.
fn put_any(any: &AnyRef<'_>, out: &mut Vec<u8>) -> Result<(), AllocError>
    ensures { OnOk result (out.new.items ≡ out.old.items ++ any_digits (any_of any.now)) }
{
    put_hex(&[any.tag().octet()], out)?;
    put_field(b":", any.value(), out)
}

/// Appends the object identifier and `/` to `out`.
fn put_identifier(oid: &ObjectIdentifier, out: &mut Vec<u8>) -> Result<(), AllocError>
    ensures { OnOk result (out.new.items ≡ out.old.items ++ identifier_digits (own_octets_of oid.now)) }
{
    put_hex(oid.as_bytes(), out)?;
    out.extend_from_slice(b"/")
}

/// Appends an algorithm with parameters of any type to `out`.
fn put_plain(algorithm: &AlgorithmIdentifierRef<'_>, out: &mut Vec<u8>) -> Result<(), AllocError>
    ensures { OnOk result (out.new.items ≡ out.old.items ++ plain_digits (algorithm_of algorithm.now)) }
{
    put_identifier(&algorithm.oid, out)?;
    match &algorithm.parameters {
        Some(any) => put_any(any, out),
        None => out.extend_from_slice(ABSENT),
    }
}

/// Appends an algorithm in brackets to `out`.
fn put_bracketed(
    algorithm: &AlgorithmIdentifierRef<'_>,
    out: &mut Vec<u8>,
) -> Result<(), AllocError>
    ensures { OnOk result (out.new.items ≡ out.old.items ++ bracketed_digits (algorithm_of algorithm.now)) }
{
    out.extend_from_slice(b"[")?;
    put_plain(algorithm, out)?;
    out.extend_from_slice(b"]")
}

/// Appends a mask generation function to `out`.
fn put_mask(mask_gen: &MaskGenRef<'_>, out: &mut Vec<u8>) -> Result<(), AllocError>
    ensures { OnOk result (out.new.items ≡ out.old.items ++ mask_digits (mask_gen_of mask_gen.now)) }
{
    put_identifier(&mask_gen.oid, out)?;
    match &mask_gen.parameters {
        Some(hash) => put_bracketed(hash, out),
        None => out.extend_from_slice(ABSENT),
    }
}

/// Appends the hash function and the mask generation function to `out`.
fn put_hash_fields(
    hash: &AlgorithmIdentifierRef<'_>,
    mask_gen: &MaskGenRef<'_>,
    out: &mut Vec<u8>,
) -> Result<(), AllocError>
    ensures { let told = hash_and_mask_fields (algorithm_of hash.now) (mask_gen_of mask_gen.now) in
        OnOk result (out.new.items ≡ out.old.items ++ told) }
{
    out.extend_from_slice(b" hash=")?;
    put_plain(hash, out)?;
    out.extend_from_slice(b" mask=")?;
    put_mask(mask_gen, out)
}

/// Appends to `out` how many fields equal their defaults, and the encoding.
fn put_spelling(defaults: u8, again: &[u8], out: &mut Vec<u8>) -> Result<(), AllocError>
    ensures { OnOk result (out.new.items ≡ out.old.items ++ spelling_fields defaults again.now) }
{
    put_number(b" defaults=", usize::from(defaults), out)?;
    put_field(b" again=", again, out)
}

/// Appends the output for `pss` to `out`.
fn put_pss(
    params: &RsaPssParamsRef<'_>,
    defaults: u8,
    again: &[u8],
    out: &mut Vec<u8>,
) -> Result<(), AllocError>
    ensures { OnOk result (out.new.items ≡ out.old.items ++ pss_answer (pss_of params.now) defaults again.now) }
{
    out.extend_from_slice(b"pss")?;
    put_hash_fields(&params.hash, &params.mask_gen, out)?;
    put_number(b" salt=", usize::from(params.salt_len), out)?;
    put_number(b" trailer=", params.trailer_field as usize, out)?;
    put_spelling(defaults, again, out)
}

/// Appends the output for `oaep` to `out`.
fn put_oaep(
    params: &RsaOaepParamsRef<'_>,
    defaults: u8,
    again: &[u8],
    out: &mut Vec<u8>,
) -> Result<(), AllocError>
    ensures { OnOk result (out.new.items ≡ out.old.items ++ oaep_answer (oaep_of params.now) defaults again.now) }
{
    out.extend_from_slice(b"oaep")?;
    put_hash_fields(&params.hash, &params.mask_gen, out)?;
    out.extend_from_slice(b" source=")?;
    put_plain(&params.p_source, out)?;
    put_spelling(defaults, again, out)
}

impl<'a> Parameters<'a> for RsaPssParamsRef<'a> {
    ghost Params = { PssParameters };

    ghost params = { pss_of };

    ghost Is = { IsPss };

    ghost fields_of = { pss_fields };

    ghost answer_of = { pss_answer };

    fn read(encoding: &'a [u8]) -> Option<RsaPssParamsRef<'a>> {
        RsaPssParamsRef::try_from(encoding).ok()
    }

    fn is_strict(encoding: &'a [u8]) -> bool {
        RsaPssParamsRef::from_der_strict(encoding).is_ok()
    }

    fn is_same(&self, other: &RsaPssParamsRef<'a>) -> bool {
        equal(self, other)
    }

    fn all_encodings(&self, alloc: Global) -> Result<Option<Vec<Vec<u8>>>, AllocError> {
        found(self.spellings(alloc))
    }

    fn defaults(&self) -> u8 {
        self.default_fields()
    }

    fn put(&self, defaults: u8, again: &[u8], out: &mut Vec<u8>) -> Result<(), AllocError> {
        put_pss(self, defaults, again, out)
    }

    ghost encodings_are = { λ value encoding.
        (spelled_to pss_record (pss_of value) encoding, spelled_from pss_record (pss_of value) encoding) };
}

impl<'a> Parameters<'a> for RsaOaepParamsRef<'a> {
    ghost Params = { OaepParameters };

    ghost params = { oaep_of };

    ghost Is = { IsOaep };

    ghost fields_of = { oaep_fields };

    ghost answer_of = { oaep_answer };

    fn read(encoding: &'a [u8]) -> Option<RsaOaepParamsRef<'a>> {
        RsaOaepParamsRef::try_from(encoding).ok()
    }

    fn is_strict(encoding: &'a [u8]) -> bool {
        RsaOaepParamsRef::from_der_strict(encoding).is_ok()
    }

    fn is_same(&self, other: &RsaOaepParamsRef<'a>) -> bool {
        equal(self, other)
    }

    fn all_encodings(&self, alloc: Global) -> Result<Option<Vec<Vec<u8>>>, AllocError> {
        found(self.spellings(alloc))
    }

    fn defaults(&self) -> u8 {
        self.default_fields()
    }

    fn put(&self, defaults: u8, again: &[u8], out: &mut Vec<u8>) -> Result<(), AllocError> {
        put_oaep(self, defaults, again, out)
    }

    ghost encodings_are = { λ value encoding.
        (spelled_to oaep_record (oaep_of value) encoding, spelled_from oaep_record (oaep_of value) encoding) };
}
