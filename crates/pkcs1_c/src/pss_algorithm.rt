//! The algorithm identifier of RSASSA-PSS with its parameters.
ghost use Rattle.std.specs.Prelude.{◌≡◌, ◌≢◌, length, Some, None};
ghost use Rattle.pkcs1_params.specs.Words.{rsa_pss_algorithm, strict_pss_algorithm};
ghost use Rattle.pkcs1_c.specs.Words.{FieldsError, IsErrorOf, IsStatusOf, PssFieldError, PssIsTidy, WritesOrTells, pss_seen};
ghost use Rattle.standard.specs.Statement.{Decodes, IsShortest, PssAlgorithmEncoding};

use crate::filled::fill;
use crate::pss::{PssParams, from_c_pss, to_c_pss};
use crate::status::{OK, status};
use crate::written::write_algorithm;
use pkcs1::{FromAlgorithm, RsaPssParamsView, RsassaPss};

/// Decodes the algorithm identifier of RSASSA-PSS with its parameters, as `pkcs1_c_pss_params_decode` does the
/// parameters. Another algorithm is rejected with status 7, one without parameters with status 10.
#[unsafe(no_mangle)]
pub extern "C" fn pkcs1_c_pss_algorithm_decode<'a>(
    encoding: &'a [u8],
    params: &mut PssParams<'a>,
) -> u32
    ensures ok { result ≡ OK → Decodes PssAlgorithmEncoding encoding.now (Some (pss_seen params.new)) }
    ensures rejected { result ≢ OK → Decodes PssAlgorithmEncoding encoding.now None }
    ensures exact { IsStatusOf (rsa_pss_algorithm encoding.now) result }
    ensures tidy { result ≡ OK → PssIsTidy params.new }
    ensures unchanged { result ≢ OK → params.new ≡ params.old }
{
    fill!(
        params,
        RsaPssParamsView::from_algorithm_der(encoding),
        to_c_pss
    )
}

/// Decodes the algorithm identifier as `pkcs1_c_pss_algorithm_decode` does, but only from its shortest encoding: one
/// with a default that is written out is rejected with status 5.
#[unsafe(no_mangle)]
pub extern "C" fn pkcs1_c_pss_algorithm_decode_strict<'a>(
    encoding: &'a [u8],
    params: &mut PssParams<'a>,
) -> u32
    ensures ok { result ≡ OK → Decodes (IsShortest PssAlgorithmEncoding) encoding.now (Some (pss_seen params.new)) }
    ensures rejected { result ≢ OK → Decodes (IsShortest PssAlgorithmEncoding) encoding.now None }
    ensures exact { IsStatusOf (strict_pss_algorithm encoding.now) result }
    ensures tidy { result ≡ OK → PssIsTidy params.new }
    ensures unchanged { result ≢ OK → params.new ≡ params.old }
{
    fill!(
        params,
        RsaPssParamsView::from_algorithm_der_strict(encoding),
        to_c_pss
    )
}

/// Puts the shortest encoding of the algorithm identifier of RSASSA-PSS with these parameters to the front of `out`.
/// What it returns and leaves is as of `pkcs1_c_pss_params_encode`.
#[unsafe(no_mangle)]
pub extern "C" fn pkcs1_c_pss_algorithm_encode(
    params: &PssParams<'_>,
    out: &mut [u8],
    len: &mut usize,
) -> u32
    ensures writes { WritesOrTells PssAlgorithmEncoding (pss_seen params.now) out.old out.new len.old len.new result }
    ensures exact { let v = pss_seen params.now in
        IsErrorOf (FieldsError PssFieldError PssAlgorithmEncoding v (length out.old)) result }
{
    match from_c_pss(params) {
        Ok(made) => write_algorithm::<RsassaPss, _>(&made, out, len),
        Err(failure) => status(&failure),
    }
}
