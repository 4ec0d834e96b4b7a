//! A hash function of one's own, and a value that holds an algorithm.
ghost use Rattle.std.specs.Prelude.{◌∷◌, [], Decides, refl};
ghost use Rattle.spki_core.specs.Words.{IsHash, algorithm_of};

use spki_core::{AlgorithmIdentifier, AnyRef, AsAlgorithmIdentifierRef, AssociatedOid};

/// SHA3-256.
pub struct Sha3_256;

impl AssociatedOid for Sha3_256 {
    ghost contents = { 0x60 ∷ 0x86 ∷ 0x48 ∷ 0x01 ∷ 0x65 ∷ 0x03 ∷ 0x04 ∷ 0x02 ∷ 0x08 ∷ [] };

    ghost valid = { refl };

    const OID: &'static [u8] = &[0x60, 0x86, 0x48, 0x01, 0x65, 0x03, 0x04, 0x02, 0x08];

    fn octets() -> &'static [u8] {
        Self::OID
    }
}

/// A digest, and what made it.
#[derive(Clone, Copy, Drop)]
pub struct Digest<'a> {
    /// The hash function.
    pub algorithm: AlgorithmIdentifier<AnyRef<'a>>,
    /// Its output.
    pub octets: &'a [u8],
}

impl AsAlgorithmIdentifierRef for Digest<'_> {
    ghost algorithm = { λ d. algorithm_of d.algorithm };

    fn as_algo_ref(&self) -> AlgorithmIdentifier<AnyRef<'_>> {
        self.algorithm
    }
}

/// Whether SHA3-256 made a digest.
pub fn is_by_sha3_256(digest: &Digest<'_>) -> bool
    ensures { let sha3_256 = 0x60 ∷ 0x86 ∷ 0x48 ∷ 0x01 ∷ 0x65 ∷ 0x03 ∷ 0x04 ∷ 0x02 ∷ 0x08 ∷ [] in
        Decides result (IsHash sha3_256 (algorithm_of digest.now.algorithm)) }
{
    digest.as_algo_ref().is_hash::<Sha3_256>()
}
