//! Reading of parameters. What differs between the kinds is `read_noting`; `noting.rt` has its bodies.
ghost use Rattle.std.specs.Prelude.{◌≡◌, ◌≤◌, List, false, if◌then◌else◌, length, option_map, true};
ghost use Rattle.der_core.specs.Words.{Answers, limit, ok_of, sequence_tag as sequence_kind};
ghost use Rattle.spki_core.specs.Words.{FieldRecord, any_as, any_of, noted_accepted, record_noted, record_read, record_strictly, record_whole, strict_whole, tag_number_in};
ghost use Rattle.pkcs1_params.specs.Words.{AnswersAsn1, EncodingOfFields};
ghost use Rattle.standard.specs.Statement.{Decodes, Field, IsShortest};

use crate::error::Result;
use der_core::{Error, ErrorKind, Length, Tag, TagNumber, split_encoding};
use spki_core::{AnyRef, AssociatedOid};

/// Borrowed parameters of an algorithm.
pub trait AlgorithmParams<'a>: Sized + Drop {
    /// The object identifier of the algorithm.
    type Oid: AssociatedOid;

    /// What the parameters mean.
    ghost Params: { Type 0 };

    /// What a value means.
    ghost params: { Self → Params };

    /// Which parameters may be encoded.
    ghost Is: { Params → Type 0 };

    /// The fields of their SEQUENCE.
    ghost fields_of: { Params → List Field };

    /// The kinds of these fields, with their laws.
    ghost form: { FieldRecord Is fields_of };

    /// The parameters with these contents octets, and the first field that is written though it has its default. Err:
    /// the first fault.
    fn read_noting(contents: &'a [u8]) -> der_core::Result<(Self, Option<TagNumber>)>
        requires { length contents.now ≤ limit }
        ensures { Answers (λ p. (params p.0, option_map tag_number_in p.1)) result (record_noted form contents.now) };
}

/// Reads a whole slice; if `strict`, only one in which no default is written. Nothing is allocated.
#[inline(always)]
pub(crate) fn read_params<'a, T: AlgorithmParams<'a>>(bytes: &'a [u8], strict: bool) -> Result<T>
    ensures read { strict ≡ false → Decodes (EncodingOfFields T.Is T.fields_of) bytes.now (ok_of T.params result) }
    ensures shortest { let Encoding = EncodingOfFields T.Is T.fields_of in
        strict ≡ true → Decodes (IsShortest Encoding) bytes.now (ok_of T.params result) }
    ensures exact { let read = if strict then strict_whole T.form else record_whole T.form in
        AnswersAsn1 T.params (read bytes.now) result }
{
    Ok(read_slice(bytes, strict)?)
}

/// Reads a whole slice.
#[inline(always)]
fn read_slice<'a, T: AlgorithmParams<'a>>(bytes: &'a [u8], strict: bool) -> der_core::Result<T>
    ensures { let read = if strict then strict_whole T.form else record_whole T.form in
        Answers T.params result (read bytes.now) }
{
    if bytes.len() > Length::MAX.to_usize() {
        return Err(Error::new(ErrorKind::Overflow));
    }
    let (contents, rest) = split_encoding(bytes, Tag::SEQUENCE)?;
    let (params, noted) = T::read_noting(contents)?;
    if !rest.is_empty() {
        return Err(Error::new(ErrorKind::TrailingData));
    }
    reject_noted(noted, strict)?;
    Ok(params)
}

/// Reads the parameters of an algorithm; if `strict`, only where no default is written. `TagUnexpected` if they are no
/// SEQUENCE.
#[inline(always)]
pub(crate) fn read_any<'a, T: AlgorithmParams<'a>>(
    any: AnyRef<'a>,
    strict: bool,
) -> der_core::Result<T>
    ensures { let read = if strict then record_strictly T.form else record_read T.form in
        Answers T.params result (any_as sequence_kind read (any_of any.entry)) }
{
    if any.tag() != Tag::SEQUENCE {
        return Err(Error::new(ErrorKind::TagUnexpected {
            expected: Tag::SEQUENCE,
            actual: any.tag(),
        }));
    }
    read_fields(any.value(), strict)
}

/// Reads contents octets; if `strict`, only those in which no default is written.
#[inline(always)]
pub(crate) fn read_fields<'a, T: AlgorithmParams<'a>>(
    contents: &'a [u8],
    strict: bool,
) -> der_core::Result<T>
    requires { length contents.now ≤ limit }
    ensures { let read = if strict then record_strictly T.form else record_read T.form in
        Answers T.params result (read contents.now) }
{
    let (params, noted) = T::read_noting(contents)?;
    reject_noted(noted, strict)?;
    Ok(params)
}

/// Rejects a written default, if reading is strict: `Noncanonical` with the field's tag.
#[inline(always)]
fn reject_noted(noted: Option<TagNumber>, strict: bool) -> der_core::Result<()>
    ensures { Answers (λ u. u) result (noted_accepted strict (option_map tag_number_in noted)) }
{
    match noted {
        Some(number) if strict => Err(Error::new(ErrorKind::Noncanonical {
            tag: Tag::context(number),
        })),
        _ => Ok(()),
    }
}
