//! SubjectPublicKeyInfo (RFC 5280 4.1.2.7): a record that holds any key in a BIT STRING.
ghost use Rattle.std.specs.Prelude.{◌⊎◌};

use der_core::{
    BitString, Borrowed, Containing, Encode, EncodeInParts, Encoding, Record, RowOperation,
    SequenceTag, TaggedBy,
};

/// A public key, and the algorithm that it is for.
///
/// ```text
/// SubjectPublicKeyInfo ::= SEQUENCE {
///     algorithm         AlgorithmIdentifier,
///     subjectPublicKey  BIT STRING
/// }
/// ```
#[derive(Clone, Copy, Drop)]
pub struct SubjectPublicKeyInfo<A, K> {
    /// The algorithm.
    pub algorithm: A,
    /// The key, whose encoding stands in the BIT STRING.
    pub key: BitString<Containing<K>>,
}

impl<A, K> TaggedBy for SubjectPublicKeyInfo<A, K> {
    type Marker = SequenceTag;
}

impl<A: Encoding, K: Encoding> Record for SubjectPublicKeyInfo<A, K> {
    type Fields = (A, (BitString<Containing<K>>, ()));

    ghost fields = { λ info. (info.algorithm, (info.key, tt)) };

    fn from_fields(row: (A, (BitString<Containing<K>>, ()))) -> SubjectPublicKeyInfo<A, K> {
        let (algorithm, (key, ())) = row;
        SubjectPublicKeyInfo { algorithm, key }
    }
}

impl<A: Encode, K: Encode> EncodeInParts for SubjectPublicKeyInfo<A, K> {
    ghost refused = { λ tag. A.Encode.refused tag ⊎ (K.Encode.refused tag ⊎ ⊥) };

    #[inline(always)]
    fn with_row<O: RowOperation>(&self, operation: &mut O) -> O::Output {
        operation.apply(&(Borrowed(&self.algorithm), (Borrowed(&self.key), ())))
    }
}
