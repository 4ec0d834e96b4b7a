//! The algorithm identifier id-RSASSA-PSS with its parameters (RFC 8017 A.2.3).
ghost use Rattle.std.specs.Prelude.{◌≡◌, ◌↔◌, ⊤, None, length, refl, IfErr};
ghost use Rattle.der_core.specs.Words.{ok_of};
ghost use Rattle.spki_core.specs.Words.{own_octets_of, viewed_with};
ghost use Rattle.pkcs1_params.specs.Words.{IsEncoded, Refuses, fault_in, pss_in, rsa_pss_algorithm, with_parameters};
ghost use Rattle.standard.specs.Statement.{Encodes, IsPss, PssAlgorithmEncoding, id_rsassa_pss};

use crate::algorithm::{FromAlgorithm, encode_identifier};
use crate::error::{Result, fault_of};
use crate::pss::{PssParamsOf, RsaPssParamsView};
use crate::spelling::EncodeParams;
use der_core::{Borrowed, ErrorKind};
use spki_core::{
    AlgorithmView, AnyValue, AssociatedOid, IdentifierValue, IdentifierView, ObjectIdentifier,
};

/// id-RSASSA-PSS, as a type.
pub struct RsassaPss;

impl AssociatedOid for RsassaPss {
    ghost contents = { id_rsassa_pss };

    ghost valid = { refl };

    const OID: &'static [u8] = &[0x2a, 0x86, 0x48, 0x86, 0xf7, 0x0d, 0x01, 0x01, 0x0a];

    fn octets() -> &'static [u8] {
        Self::OID
    }
}

/// The object identifier id-RSASSA-PSS (RFC 8017 A.2.3).
pub fn rsassa_pss_oid() -> ObjectIdentifier
    ensures { own_octets_of result ≡ id_rsassa_pss }
{
    ObjectIdentifier::of::<RsassaPss>()
}

impl<O: IdentifierValue, P: AnyValue> PssParamsOf<O, P> {
    /// The algorithm identifier id-RSASSA-PSS with these parameters, borrowed: to be written inside something larger.
    /// Such parameters may always be encoded.
    pub fn to_algorithm(&self) -> AlgorithmView<'_, Borrowed<'_, PssParamsOf<O, P>>>
        ensures means { viewed_with (λ p. pss_in O.octets P.any p.0.now) result
            ≡ with_parameters id_rsassa_pss (pss_in O.octets P.any self.now) }
        ensures encodable { IsPss (pss_in O.octets P.any self.now) }
    {
        self.lemma_is_valid();
        AlgorithmView {
            oid: IdentifierView::named::<RsassaPss>(),
            parameters: Some(Borrowed(self)),
        }
    }

    /// Writes the shortest encoding of the algorithm identifier id-RSASSA-PSS with these parameters to the front of a
    /// slice, and returns its length. The bytes behind it stay as they were. After an error all of the slice does. It
    /// is `Overflow` exactly if the encoding is longer than `Length::MAX`, else `NoRoom` exactly if it is longer than
    /// the slice, and never `Value`.
    pub fn encode_algorithm(&self, out: &mut [u8]) -> Result<usize>
        ensures written { let params = pss_in O.octets P.any self.now in
            Encodes PssAlgorithmEncoding params out.old out.new (ok_of (λ n. n) result) }
        ensures err { let params = pss_in O.octets P.any self.now in
            IfErr result (Refuses (λ _. ⊤) PssAlgorithmEncoding params (length out.old)) }
    {
        encode_identifier::<RsassaPss, _>(self, out)
    }
}

/// The first fault of bytes that aren't the algorithm identifier id-RSASSA-PSS with parameters, of which they have
/// exactly one; `None` if they are.
#[tactic(auto, using(crate::proofs::Faults::fault_told_given))]
pub fn fault_of_pss_algorithm(bytes: &[u8]) -> Option<ErrorKind>
    ensures fault { result ≡ fault_in (rsa_pss_algorithm bytes.now) }
    ensures encodes { (result ≡ None) ↔ IsEncoded PssAlgorithmEncoding bytes.now }
{
    fault_of(RsaPssParamsView::from_algorithm_der(bytes))
}
