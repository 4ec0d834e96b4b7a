//! The algorithm identifier id-RSAES-OAEP with its parameters (RFC 8017 A.2.1).
ghost use Rattle.std.specs.Prelude.{◌≡◌, ◌↔◌, ⊤, None, length, refl, IfErr};
ghost use Rattle.der_core.specs.Words.{ok_of};
ghost use Rattle.spki_core.specs.Words.{own_octets_of, viewed_with};
ghost use Rattle.pkcs1_params.specs.Words.{IsEncoded, Refuses, fault_in, oaep_in, rsa_oaep_algorithm, with_parameters};
ghost use Rattle.standard.specs.Statement.{Encodes, IsOaep, OaepAlgorithmEncoding, id_rsaes_oaep};

use crate::algorithm::{FromAlgorithm, encode_identifier};
use crate::error::{Result, fault_of};
use crate::oaep::{OaepParamsOf, RsaOaepParamsView};
use crate::spelling::EncodeParams;
use der_core::{Borrowed, ErrorKind};
use spki_core::{
    AlgorithmView, AnyValue, AssociatedOid, IdentifierValue, IdentifierView, ObjectIdentifier,
};

/// id-RSAES-OAEP, as a type.
pub struct RsaesOaep;

impl AssociatedOid for RsaesOaep {
    ghost contents = { id_rsaes_oaep };

    ghost valid = { refl };

    const OID: &'static [u8] = &[0x2a, 0x86, 0x48, 0x86, 0xf7, 0x0d, 0x01, 0x01, 0x07];

    fn octets() -> &'static [u8] {
        Self::OID
    }
}

/// The object identifier id-RSAES-OAEP (RFC 8017 A.2.1).
pub fn rsaes_oaep_oid() -> ObjectIdentifier
    ensures { own_octets_of result ≡ id_rsaes_oaep }
{
    ObjectIdentifier::of::<RsaesOaep>()
}

impl<O: IdentifierValue, P: AnyValue> OaepParamsOf<O, P> {
    /// The algorithm identifier id-RSAES-OAEP with these parameters, borrowed: to be written inside something larger.
    /// Such parameters may always be encoded.
    pub fn to_algorithm(&self) -> AlgorithmView<'_, Borrowed<'_, OaepParamsOf<O, P>>>
        ensures means { viewed_with (λ p. oaep_in O.octets P.any p.0.now) result
            ≡ with_parameters id_rsaes_oaep (oaep_in O.octets P.any self.now) }
        ensures encodable { IsOaep (oaep_in O.octets P.any self.now) }
    {
        self.lemma_is_valid();
        AlgorithmView {
            oid: IdentifierView::named::<RsaesOaep>(),
            parameters: Some(Borrowed(self)),
        }
    }

    /// Writes the shortest encoding of the algorithm identifier id-RSAES-OAEP with these parameters to the front of a
    /// slice, and returns its length. The bytes behind it stay as they were. After an error all of the slice does. It
    /// is `Overflow` exactly if the encoding is longer than `Length::MAX`, else `NoRoom` exactly if it is longer than
    /// the slice, and never `Value`.
    pub fn encode_algorithm(&self, out: &mut [u8]) -> Result<usize>
        ensures written { let params = oaep_in O.octets P.any self.now in
            Encodes OaepAlgorithmEncoding params out.old out.new (ok_of (λ n. n) result) }
        ensures err { let params = oaep_in O.octets P.any self.now in
            IfErr result (Refuses (λ _. ⊤) OaepAlgorithmEncoding params (length out.old)) }
    {
        encode_identifier::<RsaesOaep, _>(self, out)
    }
}

/// The first fault of bytes that aren't the algorithm identifier id-RSAES-OAEP with parameters, of which they have
/// exactly one; `None` if they are.
#[tactic(auto, using(crate::proofs::Faults::fault_told_given))]
pub fn fault_of_oaep_algorithm(bytes: &[u8]) -> Option<ErrorKind>
    ensures fault { result ≡ fault_in (rsa_oaep_algorithm bytes.now) }
    ensures encodes { (result ≡ None) ↔ IsEncoded OaepAlgorithmEncoding bytes.now }
{
    fault_of(RsaOaepParamsView::from_algorithm_der(bytes))
}
