//! A record with an identifier.
ghost use Rattle.std.specs.Prelude.{◌⊎◌, IfErr, length};
ghost use Rattle.standard.specs.Statement as standard;
ghost use Rattle.der_core.specs.Words.{Answers, Spells, Unwritten, encode_error, ok_of, whole};

use der_core::{
    Borrowed, Encode, EncodeInParts, Encoding, OctetStringRef, Record, Result, RowOperation,
    SequenceTag, TaggedBy, read_borrowed, write_only,
};
use spki_core::{AlgorithmView, AnyRef};

/// A digest, and the algorithm that made it (RFC 8017 A.2.4).
///
/// ```text
/// DigestInfo ::= SEQUENCE { digestAlgorithm AlgorithmIdentifier, digest OCTET STRING }
/// ```
#[derive(Clone, Copy, Debug, Drop)]
pub struct DigestInfo<A, D> {
    /// The hash function.
    pub algorithm: A,
    /// What it gave.
    pub digest: D,
}

/// One that borrows its parts.
pub type DigestInfoRef<'a> = DigestInfo<AlgorithmView<'a, AnyRef<'a>>, OctetStringRef<'a>>;

impl<A, D> TaggedBy for DigestInfo<A, D> {
    type Marker = SequenceTag;
}

impl<A: Encoding, D: Encoding> Record for DigestInfo<A, D> {
    type Fields = (A, (D, ()));

    ghost fields = { λ info. (info.algorithm, (info.digest, tt)) };

    fn from_fields(row: (A, (D, ()))) -> DigestInfo<A, D> {
        let (algorithm, (digest, ())) = row;
        DigestInfo { algorithm, digest }
    }
}

impl<A: Encode, D: Encode> EncodeInParts for DigestInfo<A, D> {
    ghost refused = { λ tag. A.Encode.refused tag ⊎ (D.Encode.refused tag ⊎ ⊥) };

    #[inline(always)]
    fn with_row<O: RowOperation>(&self, operation: &mut O) -> O::Output {
        operation.apply(&(Borrowed(&self.algorithm), (Borrowed(&self.digest), ())))
    }
}

/// What a slice encodes, read without memory; or the error of its first fault.
pub fn read_digest_info<'a>(bytes: &'a [u8]) -> Result<DigestInfoRef<'a>>
    ensures read { let T = ⟦<DigestInfoRef<'a> as Encoding>⟧ in
        standard.Decodes (Spells T.valid T.printed T.means) bytes.now (ok_of T.value result) }
    ensures exact { let T = ⟦<DigestInfoRef<'a> as Encoding>⟧ in
        Answers T.value result (whole T.read_front bytes.now) }
{
    read_borrowed(bytes)
}

/// Writes the only encoding to the front of a slice and returns its length. Err: exactly why; the slice is as it was.
pub fn write_digest_info<'a>(info: &DigestInfoRef<'a>, out: &mut [u8]) -> Result<usize>
    ensures written { let T = ⟦<DigestInfoRef<'a> as Encoding>⟧ in let v = T.value info.now in
        standard.Encodes (Spells T.valid T.printed T.means) v out.old out.new (ok_of (λ n. n) result) }
    ensures only { let T = ⟦<DigestInfoRef<'a> as Encoding>⟧ in
        standard.AtMostOne (Spells T.valid T.printed T.means) }
    ensures err { let T = ⟦<DigestInfoRef<'a> as Encoding>⟧ in let v = T.value info.now in
        let encodings = Spells T.valid T.printed T.means in
        IfErr result (λ e. Unwritten (λ v. T.valid (T.written v)) encodings v (length out.old) (encode_error e.kind)) }
{
    write_only(info, out)
}
