//! A SEQUENCE of OPTIONAL parts.
ghost use Rattle.std.specs.Prelude.{◌≡◌, ◌⊎◌, IfErr, length};
ghost use Rattle.standard.specs.Statement as standard;
ghost use Rattle.der_core.specs.Words.{Answers, Spells, Unwritten, encode_error, ok_of, whole};
ghost use Rattle.examples.specs.AuthorityKeyTags.{issuer_tag, key_identifier_tag, serial_number_tag};

use der_core::{
    BorrowedLast, EncodeInParts, Encoding, Last, OctetStringRef, OptionalThen, Record, Result,
    RowOperation, SequenceTag, Tag, TagMarker, Tagged, TaggedBy, UintRef, read_borrowed,
    write_only,
};

/// The tag of `keyIdentifier`.
#[derive(Clone, Copy, Debug, PartialEq, Eq, Drop)]
pub struct KeyIdentifierTag;

impl TagMarker for KeyIdentifierTag {
    ghost TAG = { key_identifier_tag };

    const TAG: Tag = Tag { octet: 0x80 };
}

/// The tag of `authorityCertIssuer`.
#[derive(Clone, Copy, Debug, PartialEq, Eq, Drop)]
pub struct IssuerTag;

impl TagMarker for IssuerTag {
    ghost TAG = { issuer_tag };

    const TAG: Tag = Tag { octet: 0xa1 };
}

/// The tag of `authorityCertSerialNumber`.
#[derive(Clone, Copy, Debug, PartialEq, Eq, Drop)]
pub struct SerialNumberTag;

impl TagMarker for SerialNumberTag {
    ghost TAG = { serial_number_tag };

    const TAG: Tag = Tag { octet: 0x82 };
}

/// Which key signed a certificate (RFC 5280 4.2.1.1). The names of the issuer are their octets, and a serial number is not
/// negative.
///
/// ```text
/// AuthorityKeyIdentifier ::= SEQUENCE {
///     keyIdentifier              [0] IMPLICIT OCTET STRING OPTIONAL,
///     authorityCertIssuer        [1] IMPLICIT GeneralNames OPTIONAL,
///     authorityCertSerialNumber  [2] IMPLICIT INTEGER OPTIONAL
/// }
/// ```
#[derive(Clone, Copy, Debug, Drop)]
pub struct AuthorityKeyIdentifier<'a> {
    /// What tells the key, mostly its hash.
    pub key_identifier: Option<Tagged<KeyIdentifierTag, OctetStringRef<'a>>>,
    /// The names of the issuer of its certificate.
    pub issuer: Option<Tagged<IssuerTag, OctetStringRef<'a>>>,
    /// The serial number of that certificate.
    pub serial_number: Option<Tagged<SerialNumberTag, UintRef<'a>>>,
}

impl TaggedBy for AuthorityKeyIdentifier<'_> {
    type Marker = SequenceTag;
}

impl<'a> Record for AuthorityKeyIdentifier<'a> {
    type Fields = OptionalThen<
        Tagged<KeyIdentifierTag, OctetStringRef<'a>>,
        OptionalThen<
            Tagged<IssuerTag, OctetStringRef<'a>>,
            Last<Tagged<SerialNumberTag, UintRef<'a>>>,
        >,
    >;

    ghost fields = { λ it. record {
      0 = it.key_identifier;
      1 = record { 0 = it.issuer; 1 = record { 0 = it.serial_number } };
    } };

    fn from_fields(row: Self::Fields) -> AuthorityKeyIdentifier<'a> {
        let OptionalThen(key_identifier, OptionalThen(issuer, Last(serial_number))) = row;
        AuthorityKeyIdentifier {
            key_identifier,
            issuer,
            serial_number,
        }
    }
}

impl EncodeInParts for AuthorityKeyIdentifier<'_> {
    ghost refused = { λ tag. (tag ≡ key_identifier_tag) ⊎ ⊥ ⊎ ((tag ≡ issuer_tag) ⊎ ⊥ ⊎ ⊥) };

    #[inline(always)]
    fn with_row<O: RowOperation>(&self, operation: &mut O) -> O::Output {
        let last = BorrowedLast(&self.serial_number);
        operation.apply(&OptionalThen(self.key_identifier, OptionalThen(self.issuer, last)))
    }
}

/// What a slice encodes, read without memory; or the error of its first fault.
pub fn read_authority_key<'a>(bytes: &'a [u8]) -> Result<AuthorityKeyIdentifier<'a>>
    ensures read { let T = ⟦<AuthorityKeyIdentifier<'a> as Encoding>⟧ in
        standard.Decodes (Spells T.valid T.printed T.means) bytes.now (ok_of T.value result) }
    ensures exact { let T = ⟦<AuthorityKeyIdentifier<'a> as Encoding>⟧ in
        Answers T.value result (whole T.read_front bytes.now) }
{
    read_borrowed(bytes)
}

/// Writes the only encoding to the front of a slice and returns its length. Err: exactly why; the slice is as it was.
pub fn write_authority_key<'a>(it: &AuthorityKeyIdentifier<'a>, out: &mut [u8]) -> Result<usize>
    ensures written { let T = ⟦<AuthorityKeyIdentifier<'a> as Encoding>⟧ in let v = T.value it.now in
        standard.Encodes (Spells T.valid T.printed T.means) v out.old out.new (ok_of (λ n. n) result) }
    ensures only { let T = ⟦<AuthorityKeyIdentifier<'a> as Encoding>⟧ in
        standard.AtMostOne (Spells T.valid T.printed T.means) }
    ensures err { let T = ⟦<AuthorityKeyIdentifier<'a> as Encoding>⟧ in let v = T.value it.now in
        let encodings = Spells T.valid T.printed T.means in
        IfErr result (λ e. Unwritten (λ v. T.valid (T.written v)) encodings v (length out.old) (encode_error e.kind)) }
{
    write_only(it, out)
}
