//! Laws of the encodings of parameters: functions that do nothing, each with a law as its contract.
ghost use Rattle.std.specs.Prelude.{ℕ, List};
ghost use Rattle.der_core.specs.Words.{AllocatesAtFront, AreBytes, Excludes, value_in};
ghost use Rattle.pkcs1_params.specs.Words.{EachHasMaskZero, DefaultsAreCounted, EachHasOneMask, EachMaskHasOne, AreDelimited, FaultsTell, HasFirstWritten, NamesFirstDefault, NamesFirstDefaultIn, IsBareOaep, IsBarePss, OaepParameters, PlainEncoding, PssParameters, rsa_oaep_algorithm, rsa_oaep_params, rsa_pss_algorithm, rsa_pss_params, strict_oaep_algorithm, strict_oaep_params, strict_pss_algorithm, ShortestHasNoDefaults, strict_pss_params};
ghost use Rattle.standard.specs.Statement.{Decodes, IsOaep, IsPss, IsShortest, OaepAlgorithmEncoding, OaepEncoding, PssAlgorithmEncoding, PssEncoding, SameByShortest, TwoToTheDefaults, TwoToTheDefaultsIn, id_rsaes_oaep, id_rsassa_pss, oaep_fields, pss_fields};

use crate::oaep::RsaOaepParamsOwned;
use crate::pss::RsaPssParamsOwned;
use der_core::Decode;
use std::alloc::Global;

/// The encodings of PSS parameters. Each value has one number k of fields that equal their defaults. Each encoding
/// stands under exactly one mask, which is below 2^k, and each mask has at most one encoding, which is one of the
/// value. The shortest is the one under mask 0, in which no default is written. A value with an encoding has that one,
/// which is no longer. If the one with every field is within the limit, there are exactly 2^k. Two encodings mean the
/// same parameters exactly if the shortest encodings of what they mean are equal.
pub fn lemma_pss_spellings()
    ensures defaults { DefaultsAreCounted pss_fields }
    ensures mask { EachHasOneMask IsPss pss_fields }
    ensures encoding { EachMaskHasOne IsPss pss_fields }
    ensures shortest { ShortestHasNoDefaults IsPss pss_fields }
    ensures fits { EachHasMaskZero IsPss pss_fields }
    ensures count { TwoToTheDefaults IsPss pss_fields }
    ensures same { SameByShortest PssEncoding }
{}

/// The encodings of OAEP parameters. Each value has one number k of fields that equal their defaults. Each encoding
/// stands under exactly one mask, which is below 2^k, and each mask has at most one encoding, which is one of the
/// value. The shortest is the one under mask 0, in which no default is written. A value with an encoding has that one,
/// which is no longer. If the one with every field is within the limit, there are exactly 2^k. Two encodings mean the
/// same parameters exactly if the shortest encodings of what they mean are equal.
pub fn lemma_oaep_spellings()
    ensures defaults { DefaultsAreCounted oaep_fields }
    ensures mask { EachHasOneMask IsOaep oaep_fields }
    ensures encoding { EachMaskHasOne IsOaep oaep_fields }
    ensures shortest { ShortestHasNoDefaults IsOaep oaep_fields }
    ensures fits { EachHasMaskZero IsOaep oaep_fields }
    ensures count { TwoToTheDefaults IsOaep oaep_fields }
    ensures same { SameByShortest OaepEncoding }
{}

/// The functions that tell the parameters of whole slices give parameters exactly of the bytes that encode them, and
/// these. Those of strict reading do so of the shortest encoding. Each of their faults is about the bytes. Of an
/// encoding that isn't the shortest it is `Noncanonical` of the tag of the first default that is written.
pub fn lemma_params_decode()
    ensures pss { (bytes : List ℕ) → AreBytes bytes → Decodes PssEncoding bytes (value_in (rsa_pss_params bytes)) }
    ensures oaep { (bytes : List ℕ) → AreBytes bytes → Decodes OaepEncoding bytes (value_in (rsa_oaep_params bytes)) }
    ensures strict_pss { (bytes : List ℕ) → AreBytes bytes
        → Decodes (IsShortest PssEncoding) bytes (value_in (strict_pss_params bytes)) }
    ensures strict_oaep { (bytes : List ℕ) → AreBytes bytes
        → Decodes (IsShortest OaepEncoding) bytes (value_in (strict_oaep_params bytes)) }
    ensures faults_pss { FaultsTell strict_pss_params }
    ensures faults_oaep { FaultsTell strict_oaep_params }
    ensures first_pss { NamesFirstDefault IsPss pss_fields strict_pss_params }
    ensures first_oaep { NamesFirstDefault IsOaep oaep_fields strict_oaep_params }
{}

/// In each encoding that isn't the shortest a default is written. One is the first, which `lemma_params_decode` names.
pub fn lemma_written_defaults_are_found()
    ensures pss { HasFirstWritten IsPss pss_fields }
    ensures oaep { HasFirstWritten IsOaep oaep_fields }
{}

/// Reading owned parameters never asks for memory if no algorithm in them has parameters with octets.
pub fn lemma_bare_params_take_no_memory()
    ensures pss { (params : PssParameters) (bytes : List ℕ) → PssEncoding params bytes → IsBarePss params
        → AllocatesAtFront ⟦<RsaPssParamsOwned as Decode<&'static [u8], Global>>⟧.may_allocate bytes → ⊥ }
    ensures oaep { (params : OaepParameters) (bytes : List ℕ) → OaepEncoding params bytes → IsBareOaep params
        → AllocatesAtFront ⟦<RsaOaepParamsOwned as Decode<&'static [u8], Global>>⟧.may_allocate bytes → ⊥ }
{}

/// The encodings of algorithm identifiers with parameters. None is empty, or a proper beginning of another, and each
/// means one value. Two mean the same exactly if the shortest encodings of what they mean are equal. Of k default
/// fields there are exactly two to the k, if the one with every field is within the limit. The functions that tell the
/// parameters in them do so as those of `lemma_params_decode`.
pub fn lemma_algorithms()
    ensures pss { (bytes : List ℕ) → AreBytes bytes
        → Decodes PssAlgorithmEncoding bytes (value_in (rsa_pss_algorithm bytes)) }
    ensures oaep { (bytes : List ℕ) → AreBytes bytes
        → Decodes OaepAlgorithmEncoding bytes (value_in (rsa_oaep_algorithm bytes)) }
    ensures strict_pss { (bytes : List ℕ) → AreBytes bytes
        → Decodes (IsShortest PssAlgorithmEncoding) bytes (value_in (strict_pss_algorithm bytes)) }
    ensures strict_oaep { (bytes : List ℕ) → AreBytes bytes
        → Decodes (IsShortest OaepAlgorithmEncoding) bytes (value_in (strict_oaep_algorithm bytes)) }
    ensures delimited_pss { AreDelimited PssAlgorithmEncoding }
    ensures delimited_oaep { AreDelimited OaepAlgorithmEncoding }
    ensures same_pss { SameByShortest PssAlgorithmEncoding }
    ensures same_oaep { SameByShortest OaepAlgorithmEncoding }
    ensures count_pss { TwoToTheDefaultsIn id_rsassa_pss IsPss pss_fields }
    ensures count_oaep { TwoToTheDefaultsIn id_rsaes_oaep IsOaep oaep_fields }
    ensures faults_pss { FaultsTell strict_pss_algorithm }
    ensures faults_oaep { FaultsTell strict_oaep_algorithm }
    ensures first_pss { NamesFirstDefaultIn id_rsassa_pss IsPss pss_fields strict_pss_algorithm }
    ensures first_oaep { NamesFirstDefaultIn id_rsaes_oaep IsOaep oaep_fields strict_oaep_algorithm }
{}

/// No bytes encode identifiers of both algorithms, or an identifier and parameters alone.
pub fn lemma_algorithms_exclude_each_other()
    ensures algorithms { Excludes PssAlgorithmEncoding OaepAlgorithmEncoding }
    ensures pss { Excludes PssEncoding PlainEncoding }
    ensures oaep { Excludes OaepEncoding PlainEncoding }
{}
