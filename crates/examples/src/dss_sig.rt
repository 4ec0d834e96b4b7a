//! A record of two numbers: the value of a DSA or ECDSA signature (RFC 3279 2.2.3).

ghost use Rattle.std.specs.Prelude.{◌⊎◌, IfErr, length};
ghost use Rattle.standard.specs.Statement as standard;
ghost use Rattle.der_core.specs.Words.{Answers, Spells, Unwritten, encode_error, ok_of, whole};

use der_core::{
    Borrowed, Encode, EncodeInParts, Encoding, Record, Result, RowOperation, SequenceTag, TaggedBy,
    UintRef, read_borrowed, write_only,
};

/// The value of a DSA or ECDSA signature.
///
/// ```text
/// Dss-Sig-Value ::= SEQUENCE { r INTEGER, s INTEGER }
/// ```
#[derive(Clone, Copy, Debug, PartialEq, Eq, Drop)]
pub struct DssSigValue<U> {
    /// The number r.
    pub r: U,
    /// The number s.
    pub s: U,
}

/// A signature that borrows its numbers.
pub type DssSigValueRef<'a> = DssSigValue<UintRef<'a>>;

impl<U> TaggedBy for DssSigValue<U> {
    type Marker = SequenceTag;
}

impl<U: Encoding> Record for DssSigValue<U> {
    type Fields = (U, (U, ()));

    ghost fields = { λ signature. (signature.r, (signature.s, tt)) };

    fn from_fields(row: (U, (U, ()))) -> DssSigValue<U> {
        let (r, (s, ())) = row;
        DssSigValue { r, s }
    }
}

impl<U: Encode> EncodeInParts for DssSigValue<U> {
    ghost refused = { λ tag. U.Encode.refused tag ⊎ (U.Encode.refused tag ⊎ ⊥) };

    #[inline(always)]
    fn with_row<O: RowOperation>(&self, operation: &mut O) -> O::Output {
        operation.apply(&(Borrowed(&self.r), (Borrowed(&self.s), ())))
    }
}

/// The signature that a slice encodes, read without memory; or the error of its first fault.
pub fn read<'a>(bytes: &'a [u8]) -> Result<DssSigValueRef<'a>>
    ensures read { let T = ⟦<DssSigValueRef<'a> as Encoding>⟧ in
        standard.Decodes (Spells T.valid T.printed T.means) bytes.now (ok_of T.value result) }
    ensures exact { let T = ⟦<DssSigValueRef<'a> as Encoding>⟧ in
        Answers T.value result (whole T.read_front bytes.now) }
{
    read_borrowed(bytes)
}

/// Writes the only encoding of a signature to the front of a slice and returns its length.
pub fn write<'a>(signature: &DssSigValueRef<'a>, out: &mut [u8]) -> Result<usize>
    ensures written { let T = ⟦<DssSigValueRef<'a> as Encoding>⟧ in let v = T.value signature.now in
        standard.Encodes (Spells T.valid T.printed T.means) v out.old out.new (ok_of (λ n. n) result) }
    ensures only { let T = ⟦<DssSigValueRef<'a> as Encoding>⟧ in
        standard.AtMostOne (Spells T.valid T.printed T.means) }
    ensures err { let T = ⟦<DssSigValueRef<'a> as Encoding>⟧ in let v = T.value signature.now in
        let encodings = Spells T.valid T.printed T.means in
        IfErr result (λ e. Unwritten (λ v. T.valid (T.written v)) encodings v (length out.old) (encode_error e.kind)) }
{
    write_only(signature, out)
}
