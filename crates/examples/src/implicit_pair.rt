//! A row under another tag than that of SEQUENCE: two numbers, tagged implicitly (X.690 8.14.3).
ghost use Rattle.std.specs.Prelude.{◌⊎◌, IfErr, length};
ghost use Rattle.standard.specs.Statement as standard;
ghost use Rattle.der_core.specs.Words.{Answers, Spells, Unwritten, encode_error, ok_of, whole};
ghost use Rattle.examples.specs.ImplicitPair.{implicit_tag};

use der_core::{
    Borrowed, Encode, EncodeInParts, Encoding, Record, Result, RowOperation, Tag, TagMarker,
    TaggedBy, UintRef, read_borrowed, write_only,
};

/// The tag `[0]`.
pub struct ImplicitTag;

impl TagMarker for ImplicitTag {
    ghost TAG = { implicit_tag };

    const TAG: Tag = Tag { octet: 0xa0 };
}

/// Two numbers.
///
/// ```text
/// Pair ::= [0] IMPLICIT SEQUENCE { first INTEGER, second INTEGER }
/// ```
#[derive(Clone, Copy, Debug, PartialEq, Eq, Drop)]
pub struct ImplicitPair<U> {
    /// The first number.
    pub first: U,
    /// The second number.
    pub second: U,
}

/// A pair that borrows its numbers.
pub type ImplicitPairRef<'a> = ImplicitPair<UintRef<'a>>;

impl<U> TaggedBy for ImplicitPair<U> {
    type Marker = ImplicitTag;
}

impl<U: Encoding> Record for ImplicitPair<U> {
    type Fields = (U, (U, ()));

    ghost fields = { λ pair. (pair.first, (pair.second, tt)) };

    fn from_fields(row: (U, (U, ()))) -> ImplicitPair<U> {
        let (first, (second, ())) = row;
        ImplicitPair { first, second }
    }
}

impl<U: Encode> EncodeInParts for ImplicitPair<U> {
    ghost refused = { λ tag. U.Encode.refused tag ⊎ (U.Encode.refused tag ⊎ ⊥) };

    #[inline(always)]
    fn with_row<O: RowOperation>(&self, operation: &mut O) -> O::Output {
        operation.apply(&(Borrowed(&self.first), (Borrowed(&self.second), ())))
    }
}

/// The pair that a slice encodes, read without memory; or the error of its first fault.
pub fn read_pair<'a>(bytes: &'a [u8]) -> Result<ImplicitPairRef<'a>>
    ensures read { let T = ⟦<ImplicitPairRef<'a> as Encoding>⟧ in
        standard.Decodes (Spells T.valid T.printed T.means) bytes.now (ok_of T.value result) }
    ensures exact { let T = ⟦<ImplicitPairRef<'a> as Encoding>⟧ in
        Answers T.value result (whole T.read_front bytes.now) }
{
    read_borrowed(bytes)
}

/// Writes the only encoding of a pair to the front of a slice and returns its length. Err: the slice is as it was, and
/// the error says exactly why.
pub fn write_pair<'a>(pair: &ImplicitPairRef<'a>, out: &mut [u8]) -> Result<usize>
    ensures written { let T = ⟦<ImplicitPairRef<'a> as Encoding>⟧ in let v = T.value pair.now in
        standard.Encodes (Spells T.valid T.printed T.means) v out.old out.new (ok_of (λ n. n) result) }
    ensures only { let T = ⟦<ImplicitPairRef<'a> as Encoding>⟧ in
        standard.AtMostOne (Spells T.valid T.printed T.means) }
    ensures err { let T = ⟦<ImplicitPairRef<'a> as Encoding>⟧ in let v = T.value pair.now in
        let encodings = Spells T.valid T.printed T.means in
        IfErr result (λ e. Unwritten (λ v. T.valid (T.written v)) encodings v (length out.old) (encode_error e.kind)) }
{
    write_only(pair, out)
}
