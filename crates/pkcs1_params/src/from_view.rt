//! Parameters are read as views. Then they are kept or copied, by what is to hold their identifiers.
ghost use Rattle.std.specs.Prelude.{◌≡◌};
ghost use Rattle.spki_core.specs.Words.{any_of, mask_gen_of, viewed_with};
ghost use Rattle.pkcs1_params.specs.Words.{oaep_in, oaep_of, oaep_viewed, pss_in, pss_of, pss_viewed};

use crate::hash_fields::MaskGenOf;
use crate::oaep::{OaepParamsOf, RsaOaepParams, RsaOaepParamsRef, RsaOaepParamsView};
use crate::pss::{PssParamsOf, RsaPssParams, RsaPssParamsRef, RsaPssParamsView};
use spki_core::{AlgorithmIdentifier, AnyRef, IdentifierView, ObjectIdentifier, ReadIdentifier};

/// What holds the identifiers of parameters that are read: `IdentifierView`, or `ObjectIdentifier` as copies.
pub trait ReadParams<'a>: ReadIdentifier<'a> {
    /// The RSASSA-PSS parameters of a view.
    fn pss_from_view(params: RsaPssParamsView<'a>) -> PssParamsOf<Self, AnyRef<'a>>
        ensures { pss_in Self.octets any_of result ≡ pss_viewed params.entry };

    /// The RSAES-OAEP parameters of a view.
    fn oaep_from_view(params: RsaOaepParamsView<'a>) -> OaepParamsOf<Self, AnyRef<'a>>
        ensures { oaep_in Self.octets any_of result ≡ oaep_viewed params.entry };
}

impl<'a> ReadParams<'a> for IdentifierView<'a> {
    #[inline(always)]
    fn pss_from_view(params: RsaPssParamsView<'a>) -> RsaPssParamsView<'a> {
        params
    }

    #[inline(always)]
    fn oaep_from_view(params: RsaOaepParamsView<'a>) -> RsaOaepParamsView<'a> {
        params
    }
}

impl<'a> ReadParams<'a> for ObjectIdentifier {
    #[inline(always)]
    fn pss_from_view(params: RsaPssParamsView<'a>) -> RsaPssParams<AnyRef<'a>> {
        RsaPssParams {
            hash: params.hash.to_algorithm_identifier(),
            mask_gen: mask_gen_from_view(params.mask_gen),
            salt_len: params.salt_len,
            trailer_field: params.trailer_field,
        }
    }

    #[inline(always)]
    fn oaep_from_view(params: RsaOaepParamsView<'a>) -> RsaOaepParams<AnyRef<'a>> {
        RsaOaepParams {
            hash: params.hash.to_algorithm_identifier(),
            mask_gen: mask_gen_from_view(params.mask_gen),
            p_source: params.p_source.to_algorithm_identifier(),
        }
    }
}

/// Copies the identifiers.
#[inline(always)]
fn mask_gen_from_view<'a>(
    mask_gen: MaskGenOf<IdentifierView<'a>, AnyRef<'a>>,
) -> MaskGenOf<ObjectIdentifier, AnyRef<'a>>
    ensures { mask_gen_of result ≡ viewed_with (viewed_with any_of) mask_gen.entry }
{
    AlgorithmIdentifier {
        oid: mask_gen.oid.to_object_identifier(),
        parameters: match mask_gen.parameters {
            Some(hash) => Some(hash.to_algorithm_identifier()),
            None => None,
        },
    }
}

impl<'a> RsaPssParamsView<'a> {
    /// The parameters as a struct that holds its identifiers.
    #[inline(always)]
    pub fn to_params(self) -> RsaPssParamsRef<'a>
        ensures { pss_of result ≡ pss_viewed self.entry }
    {
        ObjectIdentifier::pss_from_view(self)
    }
}

impl<'a> RsaOaepParamsView<'a> {
    /// The parameters as a struct that holds its identifiers.
    #[inline(always)]
    pub fn to_params(self) -> RsaOaepParamsRef<'a>
        ensures { oaep_of result ≡ oaep_viewed self.entry }
    {
        ObjectIdentifier::oaep_from_view(self)
    }
}
