//! Parameters of RSASSA-PSS (RFC 8017 A.2.3). `try_from` and `from_der_strict` read them by the functions of
//! `reading.rt`.
ghost use Rattle.std.specs.Prelude.{◌≡◌, ◌↔◌, None, refl};
ghost use Rattle.der_core.specs.Words.{begins_with_any};
ghost use Rattle.pkcs1_params.specs.Words.{IsEncoded, PssParameters, fault_in, id_mgf1, pss_in, pss_kinds, pss_of, pss_read, pss_record, pss_with, rsa_pss_params, strict_pss_params, with_parameters};
ghost use Rattle.spki_core.specs.Words.{AreSpelled, Spelling, any_of, null_value, record_alike, record_law, record_means, record_shortest, record_under, spelling_printed, spelling_read};
ghost use Rattle.standard.specs.Statement.{PssEncoding, mgf1_sha1, sha1};

use crate::contents::{append_contents, check_contents, prepend_contents};
use crate::error::{Error, Result, fault_of};
use crate::from_view::ReadParams;
use crate::hash_fields::{MaskGenOf, mgf1_with, with_null};
use crate::hash_functions::Sha1;
use crate::reading::read_params;
use crate::spelling::non_defaults_in;
use crate::trailer_field::TrailerField;
use der_core::{
    Contents, EncodeValue, EqualByValue, ErrorKind, Memory, NoMemory, Prepend, SequenceTag,
    TaggedBy, TryClone, Writer,
};
use spki_core::{
    AlgorithmIdentifierOf, Any, AnyParams, AnyRef, AnyValue, AssociatedOid, IdentifierValue,
    IdentifierView, ObjectIdentifier,
};
use std::alloc::Global;
use std::fmt;

/// Parameters of RSASSA-PSS (RFC 8017 A.2.3). Explicit defaults are read, but never written.
/// An `O` holds each object identifier, a `P` the parameters of a hash function or a source: see `RsaPssParams` and
/// `RsaPssParamsView`.
///
/// ```text
/// RSASSA-PSS-params ::= SEQUENCE {
///     hashAlgorithm     [0] HashAlgorithm     DEFAULT sha1,
///     maskGenAlgorithm  [1] MaskGenAlgorithm  DEFAULT mgf1SHA1,
///     saltLength        [2] INTEGER           DEFAULT 20,
///     trailerField      [3] TrailerField      DEFAULT trailerFieldBC
/// }
/// ```
#[derive(Clone, Copy, PartialEq, Eq, Drop)]
pub struct PssParamsOf<O, P> {
    /// The hash function; SHA-1 with NULL by default.
    pub hash: AlgorithmIdentifierOf<O, P>,
    /// The mask generation function and its hash function; MGF1 with SHA-1 with NULL by default.
    pub mask_gen: MaskGenOf<O, P>,
    /// The salt length in octets, from 0 to 255; 20 by default.
    pub salt_len: u8,
    /// The trailer field of an encoded message; `BC` by default.
    pub trailer_field: TrailerField,
}

/// RSASSA-PSS parameters that hold their identifiers.
pub type RsaPssParams<P> = PssParamsOf<ObjectIdentifier, P>;

/// RSASSA-PSS parameters whose algorithms have borrowed parameters.
pub type RsaPssParamsRef<'a> = RsaPssParams<AnyRef<'a>>;

/// RSASSA-PSS parameters whose algorithms have owned parameters. `Decode::from_der` reads them. Memory runs out there
/// only if the slice begins with a SEQUENCE of parameters, and an algorithm in them has parameters with octets to copy.
pub type RsaPssParamsOwned = RsaPssParams<Any>;

/// RSASSA-PSS parameters over their encoding, whose octets are their identifiers. Only `to_params` copies them.
pub type RsaPssParamsView<'a> = PssParamsOf<IdentifierView<'a>, AnyRef<'a>>;

impl<'a, O: ReadParams<'a>> TryFrom<&'a [u8]> for PssParamsOf<O, AnyRef<'a>> {
    ghost use Rattle.der_core.specs.Words.{ok_of};
    ghost use Rattle.pkcs1_params.specs.Words.{AnswersAsn1};
    ghost use Rattle.standard.specs.Statement.{Decodes};

    type Error = Error;

    /// Reads parameters, and allocates nothing. Ok exactly if the whole slice encodes some: then these. A field that is
    /// left out has its default, and a default that is written out is accepted. Err: the first fault of parameters.
    fn try_from(bytes: &'a [u8]) -> Result<PssParamsOf<O, AnyRef<'a>>>
        ensures read { Decodes PssEncoding bytes.now (ok_of (pss_in O.octets any_of) result) }
        ensures exact { AnswersAsn1 (pss_in O.octets any_of) (rsa_pss_params bytes.now) result }
    {
        let view = read_params::<RsaPssParamsView<'a>>(bytes, false)?;
        Ok(O::pss_from_view(view))
    }
}

impl<'a, O: ReadParams<'a>> PssParamsOf<O, AnyRef<'a>> {
    ghost use Rattle.der_core.specs.Words.{ok_of};
    ghost use Rattle.pkcs1_params.specs.Words.{AnswersAsn1};
    ghost use Rattle.standard.specs.Statement.{Decodes, IsShortest};

    /// Reads parameters as `try_from` does, but only from their shortest encoding. Of an encoding in which a default is
    /// written the error is `Noncanonical` with the tag of the first such field. Else it is that of `try_from`.
    pub fn from_der_strict(bytes: &'a [u8]) -> Result<PssParamsOf<O, AnyRef<'a>>>
        ensures read { Decodes (IsShortest PssEncoding) bytes.now (ok_of (pss_in O.octets any_of) result) }
        ensures exact { AnswersAsn1 (pss_in O.octets any_of) (strict_pss_params bytes.now) result }
    {
        let view = read_params::<RsaPssParamsView<'a>>(bytes, true)?;
        Ok(O::pss_from_view(view))
    }
}

/// The first fault of bytes that aren't RSASSA-PSS parameters, of which they have exactly one; `None` if they are such
/// parameters.
#[tactic(auto, using(crate::proofs::Faults::fault_told_given))]
pub fn fault_of_pss_params(bytes: &[u8]) -> Option<ErrorKind>
    ensures fault { result ≡ fault_in (rsa_pss_params bytes.now) }
    ensures encodes { (result ≡ None) ↔ IsEncoded PssEncoding bytes.now }
{
    fault_of(RsaPssParamsView::try_from(bytes))
}

impl<O: IdentifierValue, P: AnyValue> Contents for PssParamsOf<O, P> {
    ghost Value = { PssParameters };

    ghost value = { pss_in O.octets P.any };

    ghost Spelling = { Spelling pss_kinds };

    ghost means = { record_means pss_record };

    ghost written = { record_under pss_record 0 };

    ghost valid = { AreSpelled pss_kinds };

    ghost printed = { spelling_printed pss_kinds };

    ghost read_spelling = { spelling_read pss_kinds };

    ghost read = { pss_read };

    ghost law = { record_law pss_record };

    ghost shortest = { record_shortest pss_record };

    ghost reads_alike = { record_alike pss_record };

    ghost begins = { begins_with_any };
}

impl<O, P> TaggedBy for PssParamsOf<O, P> {
    type Marker = SequenceTag;
}

impl<O: IdentifierValue, P: AnyValue> EncodeValue for PssParamsOf<O, P> {
    ghost refused = { λ _. ⊥ };

    #[inline(always)]
    fn check_value(&self) -> der_core::Result<()> {
        check_contents(self, 0)
    }

    #[inline(always)]
    fn prepend_value<W: Prepend>(&self, writer: &mut W) {
        prepend_contents(self, non_defaults_in(self), 0, writer);
    }

    fn append_value<W: Writer>(&self, writer: &mut W) -> der_core::Result<()> {
        append_contents(self, non_defaults_in(self), 0, writer)
    }
}

impl<O: IdentifierValue, P> PssParamsOf<O, P> {
    /// The hash function D with NULL, MGF1 with the same hash function, a salt of this many octets, and the trailer
    /// field.
    #[inline(always)]
    pub(crate) fn of_hash<D: AssociatedOid, M: Memory>(memory: M, salt_len: u8) -> PssParamsOf<O, P>
    where
        P: AnyParams<M>,
        ensures { let hash = with_parameters D.contents null_value in
            let mask_gen = with_parameters id_mgf1 hash in
            pss_in O.octets P.any result
            ≡ record { hash = hash; mask_gen = mask_gen; salt_len = salt_len; trailer_field = 1 } }
    {
        PssParamsOf {
            hash: with_null::<D, O, P, M>(memory),
            mask_gen: mgf1_with::<D, O, P, M>(memory),
            salt_len,
            trailer_field: TrailerField::BC,
        }
    }
}

impl<'a> RsaPssParams<AnyRef<'a>> {
    /// The default salt length in octets: that of a SHA-1 hash.
    pub const SALT_LEN_DEFAULT: u8 = 20;

    /// The hash function D with NULL, MGF1 with the same hash function, a salt of this many octets, and the trailer
    /// field.
    pub fn new<D: AssociatedOid>(salt_len: u8) -> RsaPssParams<AnyRef<'a>>
        ensures { let hash = with_parameters D.contents null_value in
            let mask_gen = with_parameters id_mgf1 hash in
            pss_of result ≡ record { hash = hash; mask_gen = mask_gen; salt_len = salt_len; trailer_field = 1 } }
    {
        RsaPssParams::of_hash::<D, NoMemory>(NoMemory, salt_len)
    }
}

impl<P: AnyValue> EqualByValue for RsaPssParams<P> {
    ghost use Rattle.spki_core.specs.Words.{holds_decides};
    ghost use Rattle.pkcs1_params.specs.Words.{pss_decides, plain_decides, mask_decides};

    ghost decides = { λ a b.
        pss_decides (pss_with P.any a) (pss_with P.any b)
        (plain_decides P.any P.eq (holds_decides P.eq P.holds P.decides) a.hash b.hash)
        (mask_decides P.any P.eq (holds_decides P.eq P.holds P.decides) a.mask_gen b.mask_gen) refl };
}

impl<P: AnyValue + TryClone> TryClone for RsaPssParams<P> {
    ghost use Rattle.std.specs.Prelude.{IfSome};

    ghost never_out_of_memory = { λ p. IfSome p.hash.parameters P.never_out_of_memory
        × IfSome p.mask_gen.parameters (λ hash. IfSome hash.parameters P.never_out_of_memory) };

    fn try_clone(&self, alloc: Global) -> der_core::Result<RsaPssParams<P>> {
        self.try_clone(alloc)
    }
}

impl<P: AnyValue + TryClone> RsaPssParams<P> {
    ghost use Rattle.std.specs.Prelude.{IfErr, IfOk, IfSome, IsOk};
    ghost use Rattle.der_core.specs.declared.error.ErrorKind.{ErrorKind};

    /// The same parameters, or `OutOfMemory`, which never comes if the parameters of each algorithm are always copied.
    pub fn try_clone(&self, alloc: Global) -> der_core::Result<RsaPssParams<P>>
        ensures ok { IfOk result (λ copy. pss_with P.any copy ≡ pss_with P.any self.now) }
        ensures err { IfErr result (λ e. e.kind ≡ ErrorKind.OutOfMemory) }
        ensures may_allocate { IfSome self.now.hash.parameters P.never_out_of_memory
            × IfSome self.now.mask_gen.parameters (λ hash. IfSome hash.parameters P.never_out_of_memory)
            → IsOk result }
    {
        Ok(RsaPssParams {
            hash: self.hash.try_clone(alloc)?,
            mask_gen: self.mask_gen.try_clone(alloc)?,
            salt_len: self.salt_len,
            trailer_field: self.trailer_field,
        })
    }
}

impl<'a, O: IdentifierValue> Default for PssParamsOf<O, AnyRef<'a>> {
    /// Every field at its default.
    #[inline(always)]
    fn default() -> PssParamsOf<O, AnyRef<'a>>
        ensures { pss_in O.octets any_of result
            ≡ record { hash = sha1; mask_gen = mgf1_sha1; salt_len = 20; trailer_field = 1 } }
    {
        PssParamsOf::of_hash::<Sha1, NoMemory>(NoMemory, RsaPssParamsRef::SALT_LEN_DEFAULT)
    }
}

impl RsaPssParams<Any> {
    ghost use Rattle.spki_core.specs.Words.{own_any_of};

    /// Every field at its default, owned. Nothing is allocated.
    pub fn default_in(alloc: Global) -> RsaPssParams<Any>
        ensures { pss_with own_any_of result
            ≡ record { hash = sha1; mask_gen = mgf1_sha1; salt_len = 20; trailer_field = 1 } }
    {
        RsaPssParams::of_hash::<Sha1, Global>(alloc, RsaPssParamsRef::SALT_LEN_DEFAULT)
    }
}

impl<P: fmt::Debug> fmt::Debug for RsaPssParams<P> {
    fn fmt<W: fmt::Write>(&self, f: &mut fmt::Formatter<W>) -> fmt::Result {
        f.debug_struct("RsaPssParams")
            .field("hash", &self.hash)
            .field("mask_gen", &self.mask_gen)
            .field("salt_len", &self.salt_len)
            .field("trailer_field", &self.trailer_field)
            .finish()
    }
}
