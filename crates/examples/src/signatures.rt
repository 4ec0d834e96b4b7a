//! The algorithm of a signature.
ghost use Rattle.std.specs.Prelude.{Decides, IfOk, OnErr, Some, None};
ghost use Rattle.standard.specs.Statement.{Decodes, PssAlgorithmEncoding, PssParameters};
ghost use Rattle.examples.specs.Signatures.{GivesSalt, IsAccepted};

use pkcs1::hash_functions::{Sha256, Sha384};
use pkcs1::{FromAlgorithm, Result, RsaPssParamsRef};

/// The salt length of an RSASSA-PSS signature, from its signatureAlgorithm in DER, if it uses SHA-256.
pub fn salt_with_sha256(signature_algorithm: &[u8]) -> Result<Option<u8>>
    ensures ok { IfOk result (λ salt_len. (params : PssParameters)
        × Decodes PssAlgorithmEncoding signature_algorithm.now (Some params) × GivesSalt params salt_len) }
    ensures err { OnErr result (Decodes PssAlgorithmEncoding signature_algorithm.now None) }
{
    let params = RsaPssParamsRef::from_algorithm_der(signature_algorithm)?;
    if !params.uses_hash::<Sha256>() {
        return Ok(None);
    }
    Ok(Some(params.salt_len))
}

/// Whether an RSASSA-PSS signature has parameters that are accepted, from its signatureAlgorithm in DER.
pub fn is_accepted(signature_algorithm: &[u8]) -> bool
    ensures { Decides result ((params : PssParameters)
        × PssAlgorithmEncoding params signature_algorithm.now × IsAccepted params) }
{
    match RsaPssParamsRef::from_algorithm_der(signature_algorithm) {
        Ok(params) => {
            (params.uses_hash::<Sha256>() && params.salt_len == 32)
                || (params.uses_hash::<Sha384>() && params.salt_len == 48)
        }
        Err(_) => false,
    }
}
