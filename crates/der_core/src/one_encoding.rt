//! Types whose values have one encoding each: what is written is the only one.
ghost use Rattle.std.specs.Prelude.{IfErr, length};
ghost use Rattle.standard.specs.Statement as standard;
ghost use Rattle.der_core.specs.Words.{AreSpelledOnce, HasAtMostOne, Prints, Spells, Unwritten, encode_error, itself_once, last_once, list_once, ok_of, row_once};

use crate::bit_string::BitString;
use crate::borrowed::Borrowed;
use crate::containing::Containing;
use crate::encode::Encode;
use crate::error::Result;
use crate::expected::Expected;
use crate::grammar::{Contents, Encoding, FixedTag};
use crate::in_range::InRange;
use crate::integer::{Uint, UintRef};
use crate::last_part::{Last, LastByTag};
use crate::octet_string::OctetStringRef;
use crate::optional_part::OptionalThen;
use crate::parts::Row;
use crate::record::InParts;
use crate::tagged::Tagged;

/// Contents of which each value has at most one.
pub trait OneContents: Contents {
    /// Two spellings of a value are the same.
    ghost once: { AreSpelledOnce Self.means };
}

/// Encodings of which each value has at most one.
pub trait OneEncoding: Encoding {
    /// Two spellings of a value are the same.
    ghost once: { AreSpelledOnce Self.means };
}

impl<T: OneContents + FixedTag> OneEncoding for T {
    ghost once = { T.OneContents.once };
}

impl<T: OneEncoding> OneEncoding for Borrowed<'_, T> {
    ghost once = { T.OneEncoding.once };
}

impl OneContents for UintRef<'_> {
    ghost once = { itself_once };
}

impl OneContents for Uint {
    ghost once = { itself_once };
}

impl OneContents for u8 {
    ghost once = { itself_once };
}

impl OneContents for bool {
    ghost once = { itself_once };
}

impl OneContents for OctetStringRef<'_> {
    ghost once = { itself_once };
}

impl<C: OneContents> OneContents for BitString<C> {
    ghost once = { C.OneContents.once };
}

impl<T: OneEncoding> OneContents for Containing<T> {
    ghost once = { T.OneEncoding.once };
}

impl<M, C: OneContents> OneContents for Tagged<M, C> {
    ghost once = { C.OneContents.once };
}

impl<const N: u8> OneContents for Expected<N> {
    ghost once = { itself_once };
}

impl<const MIN: u8, const MAX: u8> OneContents for InRange<MIN, MAX> {
    ghost once = { itself_once };
}

impl OneContents for () {
    ghost once = { itself_once };
}

impl<A: OneEncoding, B: OneContents> OneContents for (A, B) {
    ghost once = { row_once A.OneEncoding.once B.OneContents.once };
}

impl<T: OneEncoding> OneContents for Last<T> {
    ghost once = { last_once T.OneEncoding.once };
}

impl<T: OneContents + FixedTag> OneContents for LastByTag<T> {
    ghost once = { last_once T.OneContents.once };
}

impl<T: OneContents + FixedTag, R: OneContents + Row> OneContents for OptionalThen<T, R> {
    ghost once = { row_once (last_once T.OneContents.once) R.OneContents.once };
}

impl<T: OneEncoding> OneContents for Vec<T> {
    ghost once = { list_once T.OneEncoding.once };
}

impl<T: InParts> OneContents for T
where
    T::Parts: OneContents,
{
    ghost once = { T.InParts.once T.Parts.OneContents.once };
}

/// A value of the type has at most one encoding: so what is written is the only one. It does nothing: the law is its
/// contract.
pub fn lemma_one_encoding<T: OneEncoding>()
    ensures { (v : T.Value) → HasAtMostOne (Prints T.valid T.printed T.means v) }
{}

/// Writes a value's only encoding to the front of a slice: no value of the type has two. Ok(n): the first n bytes are
/// the encoding, and those behind them are as they were. Err: the slice is as it was, and the error says exactly why.
#[inline(always)]
pub fn write_only<T: OneEncoding + Encode>(value: &T, out: &mut [u8]) -> Result<usize>
    ensures written { let encodings = Spells T.valid T.printed T.means in
        standard.Encodes encodings (T.value value.now) out.old out.new (ok_of (λ n. n) result) }
    ensures only { standard.AtMostOne (Spells T.valid T.printed T.means) }
    ensures err { let encodings = Spells T.valid T.printed T.means in let v = T.value value.now in
        IfErr result (λ e. Unwritten (λ v. T.valid (T.written v)) encodings v (length out.old) (encode_error e.kind)) }
{
    value.encode_into(out)
}
