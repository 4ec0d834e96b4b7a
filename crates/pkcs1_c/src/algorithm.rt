//! Algorithm identifiers.
ghost use Rattle.std.specs.Prelude.{Decides, ◌≡◌, IfOk, IfErr};
ghost use Rattle.spki_core.specs.Words.{AreNullOrAbsent, IsHash, any_of, identifier_octets, viewed_with};
ghost use Rattle.pkcs1_params.specs.Words.{UsesHash};
ghost use Rattle.pkcs1_c.specs.Words.{kind_number, algorithm_seen, mask_gen_seen, AlgorithmIsTidy, MaskGenIsTidy, OidError, PlainError, MaskError};

use crate::bytes::Bytes;
use der_core::{Result, Tag};
use pkcs1_params::is_mgf1;
use spki_core::{AlgorithmView, AnyRef, IdentifierView};

/// An AlgorithmIdentifier (RFC 5280 4.1.1.2).
#[repr(C)]
#[derive(Clone, Copy, Drop)]
pub struct Algorithm<'a> {
    /// The contents octets of the object identifier of the algorithm.
    pub oid: &'a [u8],
    /// Whether there are parameters.
    pub has_parameters: bool,
    /// The tag octet of the parameters.
    pub tag: u8,
    /// Their contents octets.
    pub parameters: &'a [u8],
}

/// A mask generation function.
#[repr(C)]
#[derive(Clone, Copy, Drop)]
pub struct MaskGen<'a> {
    /// The contents octets of the object identifier of the function.
    pub oid: &'a [u8],
    /// Whether its parameters are there: a hash function.
    pub has_hash: bool,
    /// The hash function that it uses.
    pub hash: Algorithm<'a>,
}

/// The C struct of an algorithm.
pub(crate) fn to_c_algorithm<'a>(algorithm: &AlgorithmView<'a, AnyRef<'a>>) -> Algorithm<'a>
    ensures seen { algorithm_seen result ≡ viewed_with any_of algorithm.now }
    ensures tidy { AlgorithmIsTidy result }
{
    let oid = algorithm.oid.as_bytes();
    match &algorithm.parameters {
        None => Algorithm {
            oid,
            has_parameters: false,
            tag: 0,
            parameters: &[],
        },
        Some(any) => Algorithm {
            oid,
            has_parameters: true,
            tag: any.tag().octet(),
            parameters: any.value(),
        },
    }
}

/// The C struct of a mask generation function.
pub(crate) fn to_c_mask_gen<'a>(
    mask_gen: &AlgorithmView<'a, AlgorithmView<'a, AnyRef<'a>>>,
) -> MaskGen<'a>
    ensures seen { mask_gen_seen result ≡ viewed_with (viewed_with any_of) mask_gen.now }
    ensures tidy { MaskGenIsTidy result }
{
    let oid = mask_gen.oid.as_bytes();
    match &mask_gen.parameters {
        None => MaskGen {
            oid,
            has_hash: false,
            hash: Algorithm {
                oid: &[],
                has_parameters: false,
                tag: 0,
                parameters: &[],
            },
        },
        Some(hash) => MaskGen {
            oid,
            has_hash: true,
            hash: to_c_algorithm(hash),
        },
    }
}

/// The object identifier with these contents octets, or `OidMalformed`.
#[inline(always)]
fn from_c_oid<'a>(octets: &'a [u8]) -> Result<IdentifierView<'a>>
    ensures ok { IfOk result (λ made. identifier_octets made ≡ octets.now) }
    ensures err { IfErr result (λ e. OidError octets.now (kind_number e.kind)) }
{
    IdentifierView::from_bytes(octets)
}

/// The algorithm of a C struct.
#[inline(always)]
pub(crate) fn from_c_algorithm<'a>(
    algorithm: &Algorithm<'a>,
) -> Result<AlgorithmView<'a, AnyRef<'a>>>
    ensures ok { IfOk result (λ made. viewed_with any_of made ≡ algorithm_seen algorithm.now) }
    ensures err { IfErr result (λ e. PlainError (algorithm_seen algorithm.now) (kind_number e.kind)) }
{
    let oid = from_c_oid(algorithm.oid)?;
    let parameters = if algorithm.has_parameters {
        let tag = Tag::from_octet(algorithm.tag)?;
        Some(AnyRef::new(tag, algorithm.parameters)?)
    } else {
        None
    };
    Ok(AlgorithmView { oid, parameters })
}

/// The mask generation function of a C struct.
#[inline(always)]
pub(crate) fn from_c_mask_gen<'a>(
    mask_gen: &MaskGen<'a>,
) -> Result<AlgorithmView<'a, AlgorithmView<'a, AnyRef<'a>>>>
    ensures ok { IfOk result (λ made. viewed_with (viewed_with any_of) made ≡ mask_gen_seen mask_gen.now) }
    ensures err { IfErr result (λ e. MaskError (mask_gen_seen mask_gen.now) (kind_number e.kind)) }
{
    let oid = from_c_oid(mask_gen.oid)?;
    let parameters = if mask_gen.has_hash {
        Some(from_c_algorithm(&mask_gen.hash)?)
    } else {
        None
    };
    Ok(AlgorithmView { oid, parameters })
}

/// Whether two identifiers have the same octets, out of line.
#[inline(never)]
fn is_same_otherwise(oid: &[u8], other: &[u8]) -> bool
    ensures { Decides result (oid.now ≡ other.now) }
{
    oid == other
}

/// Whether two identifiers have the same octets. That of SHA-1 has five, and those of the other hash functions have
/// nine. These are compared in line.
#[inline(always)]
pub(crate) fn is_same(oid: &[u8], other: &[u8]) -> bool
    ensures { Decides result (oid.now ≡ other.now) }
{
    match oid {
        _ if oid.len() != other.len() => false,
        [a, b, c, d, e, f, g, h, i] => match other {
            [r, s, t, u, v, w, x, y, z] => {
                (*a == *r)
                    & (*b == *s)
                    & (*c == *t)
                    & (*d == *u)
                    & (*e == *v)
                    & (*f == *w)
                    & (*g == *x)
                    & (*h == *y)
                    & (*i == *z)
            }
            _ => false,
        },
        [a, b, c, d, e] => match other {
            [v, w, x, y, z] => { (*a == *v) & (*b == *w) & (*c == *x) & (*d == *y) & (*e == *z) }
            _ => false,
        },
        _ => is_same_otherwise(oid, other),
    }
}

/// Whether the parameters are NULL or absent, which mean the same of a hash function (RFC 4055 2.1).
#[inline(always)]
pub(crate) fn is_null_or_absent(algorithm: &Algorithm<'_>) -> bool
    ensures { Decides result (AreNullOrAbsent (algorithm_seen algorithm.now).parameters) }
{
    !algorithm.has_parameters
        || (algorithm.tag == Tag::NULL.octet() && algorithm.parameters.is_empty())
}

/// Whether the algorithm is the hash function with this identifier, with NULL or without parameters.
#[inline(always)]
fn is_hash(algorithm: &Algorithm<'_>, oid: &[u8]) -> bool
    ensures { Decides result (IsHash oid.now (algorithm_seen algorithm.now)) }
{
    is_null_or_absent(algorithm) && is_same(algorithm.oid, oid)
}

/// The same, out of line.
#[inline(never)]
fn is_hash_otherwise(algorithm: &Algorithm<'_>, oid: &Bytes<'_>) -> bool
    ensures { Decides result (IsHash oid.now.octets.now (algorithm_seen algorithm.now)) }
{
    is_hash(algorithm, oid.octets)
}

/// Whether the algorithm is the hash function with this identifier: with NULL or without parameters, which mean the
/// same (RFC 4055 2.1). Where it has nine octets, no register is saved.
#[unsafe(no_mangle)]
pub extern "C" fn pkcs1_c_algorithm_is(algorithm: &Algorithm<'_>, oid: &Bytes<'_>) -> bool
    ensures tells { Decides result (IsHash oid.now.octets.now (algorithm_seen algorithm.now)) }
{
    if algorithm.oid.len() != 9 {
        return is_hash_otherwise(algorithm, oid);
    }
    is_hash(algorithm, oid.octets)
}

/// Whether the hash function has this identifier, and the mask generation function is MGF1 with the same.
#[inline(always)]
fn uses_hash(hash: &Algorithm<'_>, mask_gen: &MaskGen<'_>, oid: &[u8]) -> bool
    ensures { Decides result (UsesHash oid.now (algorithm_seen hash.now) (mask_gen_seen mask_gen.now)) }
{
    mask_gen.has_hash && is_mgf1(mask_gen.oid) && is_hash(hash, oid) && is_hash(&mask_gen.hash, oid)
}

/// The same, out of line.
#[inline(never)]
fn uses_hash_otherwise(hash: &Algorithm<'_>, mask_gen: &MaskGen<'_>, oid: &Bytes<'_>) -> bool
    ensures { let octets = oid.now.octets.now in
        Decides result (UsesHash octets (algorithm_seen hash.now) (mask_gen_seen mask_gen.now)) }
{
    uses_hash(hash, mask_gen, oid.octets)
}

/// Whether the hash function has this identifier, and the mask generation function is MGF1 with the same: each of them
/// as `pkcs1_c_algorithm_is` has it. Where it has nine octets, no call stands between comparisons, and no register is
/// saved.
#[unsafe(no_mangle)]
pub extern "C" fn pkcs1_c_uses_hash(
    hash: &Algorithm<'_>,
    mask_gen: &MaskGen<'_>,
    oid: &Bytes<'_>,
) -> bool
    ensures tells { let octets = oid.now.octets.now in
        Decides result (UsesHash octets (algorithm_seen hash.now) (mask_gen_seen mask_gen.now)) }
{
    if hash.oid.len() != 9 {
        return uses_hash_otherwise(hash, mask_gen, oid);
    }
    uses_hash(hash, mask_gen, oid.octets)
}
