//! Parameters of RSAES-OAEP.
ghost use Rattle.std.specs.Prelude.{◌≡◌, ◌≢◌, length, IfOk, IfErr, Some, None, true, false};
ghost use Rattle.pkcs1_params.specs.Words.{LabelOf, oaep_viewed, rsa_oaep_params, strict_oaep_params};
ghost use Rattle.pkcs1_c.specs.Words.{FieldsError, IsErrorOf, IsStatusOf, OaepFieldError, OaepIsTidy, WritesOrTells, algorithm_seen, oaep_seen, status_of};
ghost use Rattle.standard.specs.Statement.{Decodes, IsShortest, OaepEncoding};

use crate::algorithm::{
    Algorithm, MaskGen, from_c_algorithm, from_c_mask_gen, to_c_algorithm, to_c_mask_gen,
};
use crate::bytes::Bytes;
use crate::filled::fill;
use crate::status::{OK, status};
use crate::written::write_params;
use der_core::Tag;
use pkcs1::RsaOaepParamsView;
use pkcs1_params::is_p_specified;

/// Parameters of RSAES-OAEP.
#[repr(C)]
#[derive(Clone, Copy, Drop)]
pub struct OaepParams<'a> {
    /// The hash function.
    pub hash: Algorithm<'a>,
    /// The mask generation function.
    pub mask_gen: MaskGen<'a>,
    /// Where the label comes from.
    pub p_source: Algorithm<'a>,
}

/// The C struct of parameters.
pub(crate) fn to_c_oaep<'a>(read: &RsaOaepParamsView<'a>) -> OaepParams<'a>
    ensures seen { oaep_seen result ≡ oaep_viewed read.now }
    ensures tidy { OaepIsTidy result }
{
    OaepParams {
        hash: to_c_algorithm(&read.hash),
        mask_gen: to_c_mask_gen(&read.mask_gen),
        p_source: to_c_algorithm(&read.p_source),
    }
}

/// The parameters of a C struct.
pub(crate) fn from_c_oaep<'a>(params: &OaepParams<'a>) -> pkcs1::Result<RsaOaepParamsView<'a>>
    ensures ok { IfOk result (λ made. oaep_viewed made ≡ oaep_seen params.now) }
    ensures err { IfErr result (λ e. OaepFieldError (oaep_seen params.now) (status_of e)) }
{
    Ok(RsaOaepParamsView {
        hash: from_c_algorithm(&params.hash)?,
        mask_gen: from_c_mask_gen(&params.mask_gen)?,
        p_source: from_c_algorithm(&params.p_source)?,
    })
}

/// Decodes parameters of RSAES-OAEP. `OK` exactly if the octets encode some: then `params` holds them, in parts of
/// `encoding` and of static defaults, and the fields behind a `has_..` that is false are empty. Else the status of the
/// first fault, and `params` is as it was.
#[unsafe(no_mangle)]
pub extern "C" fn pkcs1_c_oaep_params_decode<'a>(
    encoding: &'a [u8],
    params: &mut OaepParams<'a>,
) -> u32
    ensures ok { result ≡ OK → Decodes OaepEncoding encoding.now (Some (oaep_seen params.new)) }
    ensures rejected { result ≢ OK → Decodes OaepEncoding encoding.now None }
    ensures exact { IsStatusOf (rsa_oaep_params encoding.now) result }
    ensures tidy { result ≡ OK → OaepIsTidy params.new }
    ensures unchanged { result ≢ OK → params.new ≡ params.old }
{
    fill!(params, RsaOaepParamsView::try_from(encoding), to_c_oaep)
}

/// Decodes parameters of RSAES-OAEP as `pkcs1_c_oaep_params_decode` does, but only from their shortest encoding: one
/// with a default that is written out is rejected with status 5.
#[unsafe(no_mangle)]
pub extern "C" fn pkcs1_c_oaep_params_decode_strict<'a>(
    encoding: &'a [u8],
    params: &mut OaepParams<'a>,
) -> u32
    ensures ok { result ≡ OK → Decodes (IsShortest OaepEncoding) encoding.now (Some (oaep_seen params.new)) }
    ensures rejected { result ≢ OK → Decodes (IsShortest OaepEncoding) encoding.now None }
    ensures exact { IsStatusOf (strict_oaep_params encoding.now) result }
    ensures tidy { result ≡ OK → OaepIsTidy params.new }
    ensures unchanged { result ≢ OK → params.new ≡ params.old }
{
    fill!(
        params,
        RsaOaepParamsView::from_der_strict(encoding),
        to_c_oaep
    )
}

/// Puts the shortest encoding of parameters of RSAES-OAEP to the front of `out`. What it returns and leaves is as of
/// `pkcs1_c_pss_params_encode`, but there is no trailer field.
#[unsafe(no_mangle)]
pub extern "C" fn pkcs1_c_oaep_params_encode(
    params: &OaepParams<'_>,
    out: &mut [u8],
    len: &mut usize,
) -> u32
    ensures writes { WritesOrTells OaepEncoding (oaep_seen params.now) out.old out.new len.old len.new result }
    ensures exact { let v = oaep_seen params.now in
        IsErrorOf (FieldsError OaepFieldError OaepEncoding v (length out.old)) result }
{
    match from_c_oaep(params) {
        Ok(made) => write_params(&made, out, len),
        Err(failure) => status(&failure),
    }
}

/// Whether the source of a label is pSpecified with an OCTET STRING. Then `label` is the slice of its parameters, at
/// the same address. Else `label` is as it was.
#[unsafe(no_mangle)]
pub extern "C" fn pkcs1_c_oaep_label<'a>(source: &Algorithm<'a>, label: &mut Bytes<'a>) -> bool
    ensures label { result ≡ true → LabelOf (algorithm_seen source.now) (Some label.new.octets.now)
        × (label.new.octets ≡ source.now.parameters) }
    ensures none { result ≡ false → LabelOf (algorithm_seen source.now) None }
    ensures unchanged { result ≡ false → label.new ≡ label.old }
{
    let is_octets = source.has_parameters && source.tag == Tag::OCTET_STRING.octet();
    let is_label = is_octets && is_p_specified(source.oid);
    if is_label {
        label.octets = source.parameters;
    }
    is_label
}
