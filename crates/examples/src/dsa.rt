//! A record as the parameters of an algorithm identifier.
ghost use Rattle.std.specs.Prelude.{◌⊎◌, IfErr, length};
ghost use Rattle.standard.specs.Statement as standard;
ghost use Rattle.der_core.specs.Words.{Answers, Spells, Unwritten, encode_error, ok_of, whole};

use der_core::{
    Borrowed, Encode, EncodeInParts, Encoding, Record, Result, RowOperation, SequenceTag, TaggedBy,
    UintRef, read_borrowed, write_only,
};
use spki_core::AlgorithmView;

/// The domain of DSA keys (RFC 3279 2.3.2).
///
/// ```text
/// Dss-Parms ::= SEQUENCE { p INTEGER, q INTEGER, g INTEGER }
/// ```
#[derive(Clone, Copy, Debug, PartialEq, Eq, Drop)]
pub struct DsaParams<U> {
    /// The prime modulus.
    pub p: U,
    /// The prime divisor.
    pub q: U,
    /// The generator.
    pub g: U,
}

/// One that borrows its numbers.
pub type DsaParamsRef<'a> = DsaParams<UintRef<'a>>;

/// An algorithm identifier whose parameters are of DSA, or left out.
pub type DsaAlgorithmRef<'a> = AlgorithmView<'a, DsaParamsRef<'a>>;

impl<U> TaggedBy for DsaParams<U> {
    type Marker = SequenceTag;
}

impl<U: Encoding> Record for DsaParams<U> {
    type Fields = (U, (U, (U, ())));

    ghost fields = { λ params. (params.p, (params.q, (params.g, tt))) };

    fn from_fields(row: (U, (U, (U, ())))) -> DsaParams<U> {
        let (p, (q, (g, ()))) = row;
        DsaParams { p, q, g }
    }
}

impl<U: Encode> EncodeInParts for DsaParams<U> {
    ghost refused = { λ tag. U.Encode.refused tag ⊎ (U.Encode.refused tag ⊎ (U.Encode.refused tag ⊎ ⊥)) };

    #[inline(always)]
    fn with_row<O: RowOperation>(&self, operation: &mut O) -> O::Output {
        let later = (Borrowed(&self.q), (Borrowed(&self.g), ()));
        operation.apply(&(Borrowed(&self.p), later))
    }
}

/// What a slice encodes, read without memory; or the error of its first fault.
pub fn read_dsa_algorithm<'a>(bytes: &'a [u8]) -> Result<DsaAlgorithmRef<'a>>
    ensures read { let T = ⟦<DsaAlgorithmRef<'a> as Encoding>⟧ in
        standard.Decodes (Spells T.valid T.printed T.means) bytes.now (ok_of T.value result) }
    ensures exact { let T = ⟦<DsaAlgorithmRef<'a> as Encoding>⟧ in
        Answers T.value result (whole T.read_front bytes.now) }
{
    read_borrowed(bytes)
}

/// Writes the only encoding to the front of a slice and returns its length. Err: exactly why; the slice is as it was.
pub fn write_dsa_algorithm<'a>(algorithm: &DsaAlgorithmRef<'a>, out: &mut [u8]) -> Result<usize>
    ensures written { let T = ⟦<DsaAlgorithmRef<'a> as Encoding>⟧ in let v = T.value algorithm.now in
        standard.Encodes (Spells T.valid T.printed T.means) v out.old out.new (ok_of (λ n. n) result) }
    ensures only { let T = ⟦<DsaAlgorithmRef<'a> as Encoding>⟧ in
        standard.AtMostOne (Spells T.valid T.printed T.means) }
    ensures err { let T = ⟦<DsaAlgorithmRef<'a> as Encoding>⟧ in let v = T.value algorithm.now in
        let encodings = Spells T.valid T.printed T.means in
        IfErr result (λ e. Unwritten (λ v. T.valid (T.written v)) encodings v (length out.old) (encode_error e.kind)) }
{
    write_only(algorithm, out)
}
