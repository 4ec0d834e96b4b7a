//! Parameters of RSASSA-PSS.
ghost use Rattle.std.specs.Prelude.{◌≡◌, ◌≢◌, length, IfOk, IfErr, Some, None};
ghost use Rattle.pkcs1_params.specs.Words.{pss_viewed, rsa_pss_params, strict_pss_params};
ghost use Rattle.pkcs1_c.specs.Words.{FieldsError, IsErrorOf, IsStatusOf, PssFieldError, PssIsTidy, WritesOrTells, pss_seen, status_of};
ghost use Rattle.standard.specs.Statement.{Decodes, IsShortest, PssEncoding};

use crate::algorithm::{
    Algorithm, MaskGen, from_c_algorithm, from_c_mask_gen, to_c_algorithm, to_c_mask_gen,
};
use crate::filled::fill;
use crate::status::{OK, status};
use crate::written::write_params;
use der_core::{ErrorKind, Tag};
use pkcs1::{Error, RsaPssParamsView, TrailerField};

/// Parameters of RSASSA-PSS.
#[repr(C)]
#[derive(Clone, Copy, Drop)]
pub struct PssParams<'a> {
    /// The hash function.
    pub hash: Algorithm<'a>,
    /// The mask generation function.
    pub mask_gen: MaskGen<'a>,
    /// The length of the salt in octets.
    pub salt_len: u8,
    /// The trailer field: 1.
    pub trailer_field: u8,
}

/// The C struct of parameters.
pub(crate) fn to_c_pss<'a>(read: &RsaPssParamsView<'a>) -> PssParams<'a>
    ensures seen { pss_seen result ≡ pss_viewed read.now }
    ensures tidy { PssIsTidy result }
{
    PssParams {
        hash: to_c_algorithm(&read.hash),
        mask_gen: to_c_mask_gen(&read.mask_gen),
        salt_len: read.salt_len,
        trailer_field: 1,
    }
}

/// The parameters of a C struct.
pub(crate) fn from_c_pss<'a>(params: &PssParams<'a>) -> pkcs1::Result<RsaPssParamsView<'a>>
    ensures ok { IfOk result (λ made. pss_viewed made ≡ pss_seen params.now) }
    ensures err { IfErr result (λ e. PssFieldError (pss_seen params.now) (status_of e)) }
{
    let hash = from_c_algorithm(&params.hash)?;
    let mask_gen = from_c_mask_gen(&params.mask_gen)?;
    if params.trailer_field != 1 {
        let kind = ErrorKind::Value { tag: Tag::INTEGER };
        return Err(Error::Asn1(der_core::Error::new(kind)));
    }
    Ok(RsaPssParamsView {
        hash,
        mask_gen,
        salt_len: params.salt_len,
        trailer_field: TrailerField::BC,
    })
}

/// Decodes parameters of RSASSA-PSS. `OK` exactly if the octets encode some: then `params` holds them, in parts of
/// `encoding` and of static defaults, and the fields behind a `has_..` that is false are empty. Else the status of the
/// first fault, and `params` is as it was.
#[unsafe(no_mangle)]
pub extern "C" fn pkcs1_c_pss_params_decode<'a>(
    encoding: &'a [u8],
    params: &mut PssParams<'a>,
) -> u32
    ensures ok { result ≡ OK → Decodes PssEncoding encoding.now (Some (pss_seen params.new)) }
    ensures rejected { result ≢ OK → Decodes PssEncoding encoding.now None }
    ensures exact { IsStatusOf (rsa_pss_params encoding.now) result }
    ensures tidy { result ≡ OK → PssIsTidy params.new }
    ensures unchanged { result ≢ OK → params.new ≡ params.old }
{
    fill!(params, RsaPssParamsView::try_from(encoding), to_c_pss)
}

/// Decodes parameters of RSASSA-PSS as `pkcs1_c_pss_params_decode` does, but only from their shortest encoding: one
/// with a default that is written out is rejected with status 5.
#[unsafe(no_mangle)]
pub extern "C" fn pkcs1_c_pss_params_decode_strict<'a>(
    encoding: &'a [u8],
    params: &mut PssParams<'a>,
) -> u32
    ensures ok { result ≡ OK → Decodes (IsShortest PssEncoding) encoding.now (Some (pss_seen params.new)) }
    ensures rejected { result ≢ OK → Decodes (IsShortest PssEncoding) encoding.now None }
    ensures exact { IsStatusOf (strict_pss_params encoding.now) result }
    ensures tidy { result ≡ OK → PssIsTidy params.new }
    ensures unchanged { result ≢ OK → params.new ≡ params.old }
{
    fill!(
        params,
        RsaPssParamsView::from_der_strict(encoding),
        to_c_pss
    )
}

/// Puts the shortest encoding of parameters of RSASSA-PSS to the front of `out`. `len` and the rest of `out` are as of
/// `pkcs1_c_public_key_encode`. `NO_ROOM`: all parts of `params` can be held, and `out` is shorter than the encoding.
/// `OVERFLOW`: all can be, and no encoding is within the limit. Else the status of the first part that can't be held:
/// `OID_MALFORMED` of octets that are no object identifier, `TAG_UNKNOWN` of a tag octet that isn't supported,
/// `OVERFLOW` of contents longer than the limit, `VALUE` of a trailer field other than 1.
#[unsafe(no_mangle)]
pub extern "C" fn pkcs1_c_pss_params_encode(
    params: &PssParams<'_>,
    out: &mut [u8],
    len: &mut usize,
) -> u32
    ensures writes { WritesOrTells PssEncoding (pss_seen params.now) out.old out.new len.old len.new result }
    ensures exact { let v = pss_seen params.now in
        IsErrorOf (FieldsError PssFieldError PssEncoding v (length out.old)) result }
{
    match from_c_pss(params) {
        Ok(made) => write_params(&made, out, len),
        Err(failure) => status(&failure),
    }
}
