//! Parameters of RSAES-OAEP (RFC 8017 A.2.1). `try_from` and `from_der_strict` read them by the functions of
//! `reading.rt`.
ghost use Rattle.std.specs.Prelude.{◌≡◌, ◌↔◌, [], None};
ghost use Rattle.der_core.specs.Words.{begins_with_any};
ghost use Rattle.pkcs1_params.specs.Words.{IsEncoded, OaepParameters, fault_in, oaep_in, oaep_kinds, oaep_read, oaep_record, rsa_oaep_params, strict_oaep_params};
ghost use Rattle.spki_core.specs.Words.{AreSpelled, Spelling, any_of, record_alike, record_law, record_means, record_shortest, record_under, spelling_printed, spelling_read};
ghost use Rattle.standard.specs.Statement.{OaepEncoding, empty_label, mgf1_sha1, sha1};

use crate::contents::{append_contents, check_contents, prepend_contents};
use crate::error::{Error, Result, fault_of};
use crate::from_view::ReadParams;
use crate::hash_fields::{MaskGenOf, mgf1_with, with_null};
use crate::hash_functions::Sha1;
use crate::label::empty_source;
use crate::reading::read_params;
use crate::spelling::non_defaults_in;
use der_core::{
    Contents, EncodeValue, EqualByValue, ErrorKind, Memory, NoMemory, Prepend, SequenceTag,
    TaggedBy, TryClone, Writer,
};
use spki_core::{
    AlgorithmIdentifierOf, Any, AnyParams, AnyRef, AnyValue, AssociatedOid, IdentifierValue,
    IdentifierView, ObjectIdentifier,
};
use std::alloc::Global;
use std::fmt;

/// Parameters of RSAES-OAEP (RFC 8017 A.2.1). Explicit defaults are read, but never written.
/// An `O` holds each object identifier, a `P` the parameters of a hash function or a source: see `RsaOaepParams` and
/// `RsaOaepParamsView`.
///
/// ```text
/// RSAES-OAEP-params ::= SEQUENCE {
///     hashAlgorithm     [0] HashAlgorithm     DEFAULT sha1,
///     maskGenAlgorithm  [1] MaskGenAlgorithm  DEFAULT mgf1SHA1,
///     pSourceAlgorithm  [2] PSourceAlgorithm  DEFAULT pSpecifiedEmpty
/// }
/// ```
#[derive(Clone, Copy, PartialEq, Eq, Drop)]
pub struct OaepParamsOf<O, P> {
    /// The hash function; SHA-1 with NULL by default.
    pub hash: AlgorithmIdentifierOf<O, P>,
    /// The mask generation function and its hash function; MGF1 with SHA-1 with NULL by default.
    pub mask_gen: MaskGenOf<O, P>,
    /// The source of the label; pSpecified with an empty OCTET STRING by default.
    pub p_source: AlgorithmIdentifierOf<O, P>,
}

/// RSAES-OAEP parameters that hold their identifiers.
pub type RsaOaepParams<P> = OaepParamsOf<ObjectIdentifier, P>;

/// RSAES-OAEP parameters whose algorithms have borrowed parameters.
pub type RsaOaepParamsRef<'a> = RsaOaepParams<AnyRef<'a>>;

/// RSAES-OAEP parameters whose algorithms have owned parameters. `Decode::from_der` reads them. Memory runs out there
/// only if the slice begins with a SEQUENCE of parameters, and an algorithm in them has parameters with octets to copy.
pub type RsaOaepParamsOwned = RsaOaepParams<Any>;

/// RSAES-OAEP parameters over their encoding, whose octets are their identifiers. Only `to_params` copies them.
pub type RsaOaepParamsView<'a> = OaepParamsOf<IdentifierView<'a>, AnyRef<'a>>;

impl<'a, O: ReadParams<'a>> TryFrom<&'a [u8]> for OaepParamsOf<O, AnyRef<'a>> {
    ghost use Rattle.der_core.specs.Words.{ok_of};
    ghost use Rattle.pkcs1_params.specs.Words.{AnswersAsn1};
    ghost use Rattle.standard.specs.Statement.{Decodes};

    type Error = Error;

    /// Reads parameters, and allocates nothing. Ok exactly if the whole slice encodes some: then these. A field that is
    /// left out has its default, and a default that is written out is accepted. Err: the first fault of parameters.
    fn try_from(bytes: &'a [u8]) -> Result<OaepParamsOf<O, AnyRef<'a>>>
        ensures read { Decodes OaepEncoding bytes.now (ok_of (oaep_in O.octets any_of) result) }
        ensures exact { AnswersAsn1 (oaep_in O.octets any_of) (rsa_oaep_params bytes.now) result }
    {
        let view = read_params::<RsaOaepParamsView<'a>>(bytes, false)?;
        Ok(O::oaep_from_view(view))
    }
}

impl<'a, O: ReadParams<'a>> OaepParamsOf<O, AnyRef<'a>> {
    ghost use Rattle.der_core.specs.Words.{ok_of};
    ghost use Rattle.pkcs1_params.specs.Words.{AnswersAsn1};
    ghost use Rattle.standard.specs.Statement.{Decodes, IsShortest};

    /// Reads parameters as `try_from` does, but only from their shortest encoding. Of an encoding in which a default is
    /// written the error is `Noncanonical` with the tag of the first such field. Else it is that of `try_from`.
    pub fn from_der_strict(bytes: &'a [u8]) -> Result<OaepParamsOf<O, AnyRef<'a>>>
        ensures read { Decodes (IsShortest OaepEncoding) bytes.now (ok_of (oaep_in O.octets any_of) result) }
        ensures exact { AnswersAsn1 (oaep_in O.octets any_of) (strict_oaep_params bytes.now) result }
    {
        let view = read_params::<RsaOaepParamsView<'a>>(bytes, true)?;
        Ok(O::oaep_from_view(view))
    }
}

/// The first fault of bytes that aren't RSAES-OAEP parameters, of which they have exactly one; `None` if they are such
/// parameters.
#[tactic(auto, using(crate::proofs::Faults::fault_told_given))]
pub fn fault_of_oaep_params(bytes: &[u8]) -> Option<ErrorKind>
    ensures fault { result ≡ fault_in (rsa_oaep_params bytes.now) }
    ensures encodes { (result ≡ None) ↔ IsEncoded OaepEncoding bytes.now }
{
    fault_of(RsaOaepParamsView::try_from(bytes))
}

impl<O: IdentifierValue, P: AnyValue> Contents for OaepParamsOf<O, P> {
    ghost Value = { OaepParameters };

    ghost value = { oaep_in O.octets P.any };

    ghost Spelling = { Spelling oaep_kinds };

    ghost means = { record_means oaep_record };

    ghost written = { record_under oaep_record 0 };

    ghost valid = { AreSpelled oaep_kinds };

    ghost printed = { spelling_printed oaep_kinds };

    ghost read_spelling = { spelling_read oaep_kinds };

    ghost read = { oaep_read };

    ghost law = { record_law oaep_record };

    ghost shortest = { record_shortest oaep_record };

    ghost reads_alike = { record_alike oaep_record };

    ghost begins = { begins_with_any };
}

impl<O, P> TaggedBy for OaepParamsOf<O, P> {
    type Marker = SequenceTag;
}

impl<O: IdentifierValue, P: AnyValue> EncodeValue for OaepParamsOf<O, P> {
    ghost refused = { λ _. ⊥ };

    #[inline(always)]
    fn check_value(&self) -> der_core::Result<()> {
        check_contents(self, 0)
    }

    #[inline(always)]
    fn prepend_value<W: Prepend>(&self, writer: &mut W) {
        prepend_contents(self, non_defaults_in(self), 0, writer);
    }

    fn append_value<W: Writer>(&self, writer: &mut W) -> der_core::Result<()> {
        append_contents(self, non_defaults_in(self), 0, writer)
    }
}

impl<O: IdentifierValue, P> OaepParamsOf<O, P> {
    ghost use Rattle.pkcs1_params.specs.Words.{labelled};

    /// The hash function D with NULL, MGF1 with the same hash function, and the empty label.
    #[inline(always)]
    pub(crate) fn of_hash<D: AssociatedOid, M: Memory>(memory: M) -> OaepParamsOf<O, P>
    where
        P: AnyParams<M>,
        ensures { oaep_in O.octets P.any result ≡ labelled D.contents [] }
    {
        OaepParamsOf {
            hash: with_null::<D, O, P, M>(memory),
            mask_gen: mgf1_with::<D, O, P, M>(memory),
            p_source: empty_source::<O, P, M>(memory),
        }
    }
}

impl<'a> RsaOaepParams<AnyRef<'a>> {
    ghost use Rattle.pkcs1_params.specs.Words.{oaep_of, labelled};

    /// The hash function D with NULL, MGF1 with the same hash function, and the empty label.
    pub fn new<D: AssociatedOid>() -> RsaOaepParams<AnyRef<'a>>
        ensures { oaep_of result ≡ labelled D.contents [] }
    {
        RsaOaepParams::of_hash::<D, NoMemory>(NoMemory)
    }
}

impl<P: AnyValue> EqualByValue for RsaOaepParams<P> {
    ghost use Rattle.spki_core.specs.Words.{holds_decides};
    ghost use Rattle.pkcs1_params.specs.Words.{oaep_decides, plain_decides, mask_decides, oaep_with};

    ghost decides = { λ a b.
        oaep_decides (oaep_with P.any a) (oaep_with P.any b)
        (plain_decides P.any P.eq (holds_decides P.eq P.holds P.decides) a.hash b.hash)
        (mask_decides P.any P.eq (holds_decides P.eq P.holds P.decides) a.mask_gen b.mask_gen)
        (plain_decides P.any P.eq (holds_decides P.eq P.holds P.decides) a.p_source b.p_source) };
}

impl<P: AnyValue + TryClone> TryClone for RsaOaepParams<P> {
    ghost use Rattle.std.specs.Prelude.{IfSome};

    ghost never_out_of_memory = { λ p. IfSome p.hash.parameters P.never_out_of_memory
        × IfSome p.mask_gen.parameters (λ hash. IfSome hash.parameters P.never_out_of_memory)
        × IfSome p.p_source.parameters P.never_out_of_memory };

    fn try_clone(&self, alloc: Global) -> der_core::Result<RsaOaepParams<P>> {
        self.try_clone(alloc)
    }
}

impl<P: AnyValue + TryClone> RsaOaepParams<P> {
    ghost use Rattle.std.specs.Prelude.{IfErr, IfOk, IfSome, IsOk};
    ghost use Rattle.der_core.specs.declared.error.ErrorKind.{ErrorKind};
    ghost use Rattle.pkcs1_params.specs.Words.{oaep_with};

    /// The same parameters, or `OutOfMemory`, which never comes if the parameters of each algorithm are always copied.
    pub fn try_clone(&self, alloc: Global) -> der_core::Result<RsaOaepParams<P>>
        ensures ok { IfOk result (λ copy. oaep_with P.any copy ≡ oaep_with P.any self.now) }
        ensures err { IfErr result (λ e. e.kind ≡ ErrorKind.OutOfMemory) }
        ensures may_allocate { IfSome self.now.hash.parameters P.never_out_of_memory
            × IfSome self.now.mask_gen.parameters (λ hash. IfSome hash.parameters P.never_out_of_memory)
            × IfSome self.now.p_source.parameters P.never_out_of_memory
            → IsOk result }
    {
        Ok(RsaOaepParams {
            hash: self.hash.try_clone(alloc)?,
            mask_gen: self.mask_gen.try_clone(alloc)?,
            p_source: self.p_source.try_clone(alloc)?,
        })
    }
}

impl<'a, O: IdentifierValue> Default for OaepParamsOf<O, AnyRef<'a>> {
    /// Every field at its default.
    #[inline(always)]
    fn default() -> OaepParamsOf<O, AnyRef<'a>>
        ensures { oaep_in O.octets any_of result
            ≡ record { hash = sha1; mask_gen = mgf1_sha1; p_source = empty_label } }
    {
        OaepParamsOf::of_hash::<Sha1, NoMemory>(NoMemory)
    }
}

impl RsaOaepParams<Any> {
    ghost use Rattle.pkcs1_params.specs.Words.{oaep_with};
    ghost use Rattle.spki_core.specs.Words.{own_any_of};

    /// Every field at its default, owned. Nothing is allocated.
    pub fn default_in(alloc: Global) -> RsaOaepParams<Any>
        ensures { oaep_with own_any_of result
            ≡ record { hash = sha1; mask_gen = mgf1_sha1; p_source = empty_label } }
    {
        RsaOaepParams::of_hash::<Sha1, Global>(alloc)
    }
}

impl<P: fmt::Debug> fmt::Debug for RsaOaepParams<P> {
    fn fmt<W: fmt::Write>(&self, f: &mut fmt::Formatter<W>) -> fmt::Result {
        f.debug_struct("RsaOaepParams")
            .field("hash", &self.hash)
            .field("mask_gen", &self.mask_gen)
            .field("p_source", &self.p_source)
            .finish()
    }
}
