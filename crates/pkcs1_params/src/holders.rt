//! The algorithms in parameters, whatever holds their identifiers and parameters: how they are written.
ghost use Rattle.std.specs.Prelude.{◌≡◌};
ghost use Rattle.spki_core.specs.Words.{Algorithm, TagAndContents, algorithm_held, algorithm_in, algorithm_map, mask_gen_in, same_mask, same_plain};
ghost use Rattle.spki_core.specs.Laws.HaveEncodings.{WritesAs, algorithm_writes};
ghost use Rattle.standard.specs.Statement.{IsAlgorithm, IsAny, algorithm, any, empty_label, mgf1_sha1, sha1};

use crate::hash_fields::{is_mgf1, is_sha1};
use crate::label::is_p_specified;
use der_core::{Encode, Tag};
use spki_core::{AlgorithmIdentifierOf, AnyValue, IdentifierValue};

/// A hash function or a label source.
pub trait PlainHolder: Encode {
    /// What is held.
    ghost plain: { Self → Algorithm TagAndContents };

    /// Whether it is the default hash function, SHA-1 with NULL.
    fn is_default_hash(&self) -> bool
        ensures { result ≡ same_plain (plain self.now) sha1 };

    /// Whether it is the default source, pSpecified with the empty label.
    fn is_default_source(&self) -> bool
        ensures { result ≡ same_plain (plain self.now) empty_label };

    /// A value is written exactly if what it holds is, and in the same octets.
    ghost writes: { WritesAs Self.value (λ v. Self.valid (Self.written v)) (λ v. Self.printed (Self.written v)) plain
        (IsAlgorithm IsAny) (algorithm any) };

    /// What is held may be encoded.
    ghost held: { (x : Self) → IsAlgorithm IsAny (plain x) };
}

impl<O: IdentifierValue, P: AnyValue> PlainHolder for AlgorithmIdentifierOf<O, P> {
    ghost plain = { algorithm_in O.octets P.any };

    fn is_default_hash(&self) -> bool {
        match &self.parameters {
            Some(parameters) => {
                let oid = self.oid.as_identifier_view();
                is_sha1(oid.as_bytes()) && parameters.as_any_ref().is_alone(Tag::NULL)
            }
            None => false,
        }
    }

    fn is_default_source(&self) -> bool {
        match &self.parameters {
            Some(label) => {
                let oid = self.oid.as_identifier_view();
                is_p_specified(oid.as_bytes()) && label.as_any_ref().is_alone(Tag::OCTET_STRING)
            }
            None => false,
        }
    }

    ghost writes = { algorithm_writes O.octets P.written P.valid P.printed P.writes };

    ghost held = { algorithm_held O.octets O.identifies P.any IsAny P.held };
}

/// A mask generation function.
pub trait MaskHolder: Encode {
    /// What is held.
    ghost mask: { Self → Algorithm (Algorithm TagAndContents) };

    /// Whether it is the default, MGF1 with SHA-1 with NULL.
    fn is_default(&self) -> bool
        ensures { result ≡ same_mask (mask self.now) mgf1_sha1 };

    /// A value is written exactly if what it holds is, and in the same octets.
    ghost writes: { WritesAs Self.value (λ v. Self.valid (Self.written v)) (λ v. Self.printed (Self.written v)) mask
        (IsAlgorithm (IsAlgorithm IsAny)) (algorithm (algorithm any)) };

    /// What is held may be encoded.
    ghost held: { (x : Self) → IsAlgorithm (IsAlgorithm IsAny) (mask x) };
}

impl<O: IdentifierValue, P: AnyValue> MaskHolder
    for AlgorithmIdentifierOf<O, AlgorithmIdentifierOf<O, P>> {
    ghost mask = { mask_gen_in O.octets P.any };

    fn is_default(&self) -> bool {
        match &self.parameters {
            Some(hash) => {
                let oid = self.oid.as_identifier_view();
                is_mgf1(oid.as_bytes()) && hash.is_default_hash()
            }
            None => false,
        }
    }

    ghost writes = { algorithm_writes O.octets (algorithm_map P.written) (IsAlgorithm P.valid) (algorithm P.printed)
        (algorithm_writes O.octets P.written P.valid P.printed P.writes) };

    ghost held = { algorithm_held O.octets O.identifies (algorithm_in O.octets P.any) (IsAlgorithm IsAny)
        (algorithm_held O.octets O.identifies P.any IsAny P.held) };
}
