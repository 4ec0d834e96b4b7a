//! Sizes that a signer asks of keys and parameters. This is all the code of a crate of one's own.
ghost use Rattle.std.specs.Prelude.{◌≡◌, length, IfOk, OnErr, Some, None};
ghost use Rattle.standard.specs.Statement.{ContainedKeyEncoding, Decodes, IsShortest, PrivateKey, PssEncoding, PssParameters, octets};

use pkcs1::{Result, RsaPssParamsRef};
use pkcs8_core::rsa_from_pkcs8_der;

/// The length in octets of the modulus of the RSA key in a PKCS #8 container.
pub fn modulus_len(container: &[u8]) -> Result<usize>
    ensures ok { IfOk result (λ len. (key : PrivateKey)
        × Decodes ContainedKeyEncoding container.now (Some key) × (len ≡ length (octets key.modulus))) }
    ensures err { OnErr result (Decodes ContainedKeyEncoding container.now None) }
{
    let key = rsa_from_pkcs8_der(container)?;
    Ok(key.modulus().as_bytes().len())
}

/// The salt length of PSS parameters in their shortest encoding; another encoding is rejected.
pub fn salt_len(encoding: &[u8]) -> Result<u8>
    ensures ok { IfOk result (λ len. (params : PssParameters)
        × Decodes (IsShortest PssEncoding) encoding.now (Some params) × (len ≡ params.salt_len)) }
    ensures err { OnErr result (Decodes (IsShortest PssEncoding) encoding.now None) }
{
    let params = RsaPssParamsRef::from_der_strict(encoding)?;
    Ok(params.salt_len)
}
