//! Types that hold an algorithm identifier.
ghost use Rattle.std.specs.Prelude.{◌≡◌};
ghost use Rattle.spki_core.specs.Words.{Algorithm, TagAndContents, algorithm_of, algorithm_with};

use crate::algorithm_identifier::AlgorithmIdentifier;
use crate::any::{AnyRef, AnyValue};

/// A type that holds an algorithm identifier with parameters of any tag.
pub trait AsAlgorithmIdentifierRef {
    /// The value that is held.
    ghost algorithm: { Self → Algorithm TagAndContents };

    /// The algorithm identifier, with borrowed parameters.
    fn as_algo_ref(&self) -> AlgorithmIdentifier<AnyRef<'_>>
        ensures { algorithm_of result ≡ algorithm self.now };
}

impl<P: AnyValue> AsAlgorithmIdentifierRef for AlgorithmIdentifier<P> {
    ghost algorithm = { algorithm_with P.any };

    fn as_algo_ref(&self) -> AlgorithmIdentifier<AnyRef<'_>> {
        AlgorithmIdentifier {
            oid: self.oid,
            parameters: self.as_view().parameters,
        }
    }
}
