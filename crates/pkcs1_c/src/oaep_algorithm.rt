//! The algorithm identifier of RSAES-OAEP with its parameters.
ghost use Rattle.std.specs.Prelude.{◌≡◌, ◌≢◌, length, Some, None};
ghost use Rattle.pkcs1_params.specs.Words.{rsa_oaep_algorithm, strict_oaep_algorithm};
ghost use Rattle.pkcs1_c.specs.Words.{FieldsError, IsErrorOf, IsStatusOf, OaepFieldError, OaepIsTidy, WritesOrTells, oaep_seen};
ghost use Rattle.standard.specs.Statement.{Decodes, IsShortest, OaepAlgorithmEncoding};

use crate::filled::fill;
use crate::oaep::{OaepParams, from_c_oaep, to_c_oaep};
use crate::status::{OK, status};
use crate::written::write_algorithm;
use pkcs1::{FromAlgorithm, RsaOaepParamsView, RsaesOaep};

/// Decodes the algorithm identifier of RSAES-OAEP with its parameters, as `pkcs1_c_oaep_params_decode` does the
/// parameters. Another algorithm is rejected with status 7, one without parameters with status 10.
#[unsafe(no_mangle)]
pub extern "C" fn pkcs1_c_oaep_algorithm_decode<'a>(
    encoding: &'a [u8],
    params: &mut OaepParams<'a>,
) -> u32
    ensures ok { result ≡ OK → Decodes OaepAlgorithmEncoding encoding.now (Some (oaep_seen params.new)) }
    ensures rejected { result ≢ OK → Decodes OaepAlgorithmEncoding encoding.now None }
    ensures exact { IsStatusOf (rsa_oaep_algorithm encoding.now) result }
    ensures tidy { result ≡ OK → OaepIsTidy params.new }
    ensures unchanged { result ≢ OK → params.new ≡ params.old }
{
    fill!(
        params,
        RsaOaepParamsView::from_algorithm_der(encoding),
        to_c_oaep
    )
}

/// Decodes the algorithm identifier as `pkcs1_c_oaep_algorithm_decode` does, but only from its shortest encoding: one
/// with a default that is written out is rejected with status 5.
#[unsafe(no_mangle)]
pub extern "C" fn pkcs1_c_oaep_algorithm_decode_strict<'a>(
    encoding: &'a [u8],
    params: &mut OaepParams<'a>,
) -> u32
    ensures ok { result ≡ OK → Decodes (IsShortest OaepAlgorithmEncoding) encoding.now (Some (oaep_seen params.new)) }
    ensures rejected { result ≢ OK → Decodes (IsShortest OaepAlgorithmEncoding) encoding.now None }
    ensures exact { IsStatusOf (strict_oaep_algorithm encoding.now) result }
    ensures tidy { result ≡ OK → OaepIsTidy params.new }
    ensures unchanged { result ≢ OK → params.new ≡ params.old }
{
    fill!(
        params,
        RsaOaepParamsView::from_algorithm_der_strict(encoding),
        to_c_oaep
    )
}

/// Puts the shortest encoding of the algorithm identifier of RSAES-OAEP with these parameters to the front of `out`.
/// What it returns and leaves is as of `pkcs1_c_oaep_params_encode`.
#[unsafe(no_mangle)]
pub extern "C" fn pkcs1_c_oaep_algorithm_encode(
    params: &OaepParams<'_>,
    out: &mut [u8],
    len: &mut usize,
) -> u32
    ensures writes { let v = oaep_seen params.now in
        WritesOrTells OaepAlgorithmEncoding v out.old out.new len.old len.new result }
    ensures exact { let v = oaep_seen params.now in
        IsErrorOf (FieldsError OaepFieldError OaepAlgorithmEncoding v (length out.old)) result }
{
    match from_c_oaep(params) {
        Ok(made) => write_algorithm::<RsaesOaep, _>(&made, out, len),
        Err(failure) => status(&failure),
    }
}
