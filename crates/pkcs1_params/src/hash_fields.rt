//! hashAlgorithm and maskGenAlgorithm, which both sets of parameters begin with.
ghost use Rattle.std.specs.Prelude.{Decides, ◌≡◌, bytes_eq};
ghost use Rattle.spki_core.specs.Words.{null_value, algorithm_in, mask_gen_in};
ghost use Rattle.pkcs1_params.specs.Words.{AreSameMask, UsesHash, id_mgf1, id_sha1, pkcs1_algorithm, with_parameters};

use crate::hash_functions::Mgf1;
use der_core::{Memory, Tag};
use spki_core::{
    AlgorithmIdentifierOf, AnyParams, AnyRef, AnyValue, AssociatedOid, IdentifierValue,
    ObjectIdentifier,
};

/// A mask generation function, whose parameters name a hash function.
pub(crate) type MaskGenOf<O, P> = AlgorithmIdentifierOf<O, AlgorithmIdentifierOf<O, P>>;

/// A mask generation function that borrows the parameters of its hash function.
pub(crate) type MaskGenRef<'a> = MaskGenOf<ObjectIdentifier, AnyRef<'a>>;

/// The algorithm D with NULL.
#[inline(always)]
pub fn with_null<D: AssociatedOid, O: IdentifierValue, P: AnyParams<M>, M: Memory>(
    memory: M,
) -> AlgorithmIdentifierOf<O, P>
    ensures { algorithm_in O.octets P.any result ≡ with_parameters D.contents null_value }
{
    AlgorithmIdentifierOf {
        oid: O::named::<D>(),
        parameters: Some(P::empty(memory, Tag::NULL)),
    }
}

/// MGF1 with D with NULL.
#[inline(always)]
pub(crate) fn mgf1_with<D: AssociatedOid, O: IdentifierValue, P: AnyParams<M>, M: Memory>(
    memory: M,
) -> MaskGenOf<O, P>
    ensures { let hash = with_parameters D.contents null_value in
        mask_gen_in O.octets P.any result ≡ with_parameters id_mgf1 hash }
{
    AlgorithmIdentifierOf {
        oid: O::named::<Mgf1>(),
        parameters: Some(with_null::<D, O, P, M>(memory)),
    }
}

/// Whether these are the octets of id-sha1.
#[inline(always)]
pub(crate) fn is_sha1(octets: &[u8]) -> bool
    ensures { result ≡ bytes_eq octets.now id_sha1 }
{
    matches!(octets, [0x2b, 0x0e, 0x03, 0x02, 0x1a])
}

/// Whether these are the octets of the identifier with this number, of those of PKCS #1. They are compared eight at a
/// time.
#[inline(always)]
pub(crate) fn is_pkcs1(octets: &[u8], number: u8) -> bool
    ensures { result ≡ bytes_eq octets.now (pkcs1_algorithm number) }
{
    match octets {
        [a, b, c, d, e, f, g, h, last] => {
            let front = (*a == 0x2a)
                & (*b == 0x86)
                & (*c == 0x48)
                & (*d == 0x86)
                & (*e == 0xf7)
                & (*f == 0x0d)
                & (*g == 0x01)
                & (*h == 0x01);
            front && *last == number
        }
        _ => false,
    }
}

/// Whether these are the octets of id-mgf1.
#[inline(always)]
pub fn is_mgf1(octets: &[u8]) -> bool
    ensures { result ≡ bytes_eq octets.now id_mgf1 }
{
    is_pkcs1(octets, 8)
}

/// Whether the hash function is D, and the mask generation function is MGF1 with D.
pub(crate) fn uses_hash<D: AssociatedOid, O: IdentifierValue, P: AnyValue>(
    hash: &AlgorithmIdentifierOf<O, P>,
    mask_gen: &MaskGenOf<O, P>,
) -> bool
    ensures { let mask_gen = mask_gen_in O.octets P.any mask_gen.now in
        Decides result (UsesHash D.contents (algorithm_in O.octets P.any hash.now) mask_gen) }
{
    match &mask_gen.parameters {
        Some(under) => {
            let mask_oid = mask_gen.oid.as_identifier_view();
            is_mgf1(mask_oid.as_bytes()) && hash.is_hash::<D>() && under.is_hash::<D>()
        }
        None => false,
    }
}

/// Whether two mask generation functions mean the same: the identifiers are equal, and `is_same_hash` is true of the
/// hash functions, or both have none.
pub(crate) fn is_same_mask<O: IdentifierValue, P: AnyValue, Q: IdentifierValue, R: AnyValue>(
    a: &MaskGenOf<O, P>,
    b: &MaskGenOf<Q, R>,
) -> bool
    ensures { let other = mask_gen_in Q.octets R.any b.now in
        Decides result (AreSameMask (mask_gen_in O.octets P.any a.now) other) }
{
    let same_hash = match (&a.parameters, &b.parameters) {
        (Some(a), Some(b)) => a.is_same_hash(b),
        (None, None) => true,
        _ => false,
    };
    same_hash && a.oid.as_identifier_view().as_bytes() == b.oid.as_identifier_view().as_bytes()
}
