//! Object identifiers that borrow their octets from the input.
ghost use Rattle.std.specs.Prelude.{◌≡◌, ℕ, ◌<◌, List, slice_index, IsTrue, IfOk, IfErr};
ghost use Rattle.spki_core.specs.IdentifierTest as specs;
ghost use Rattle.spki_core.specs.Identifiers.{IsIdentifier};
ghost use Rattle.der_core.specs.Words.{Answers, begins_with_any, nothing_asked, one_spelling_shortest, reading_alike};
ghost use Rattle.spki_core.specs.Readings.{identifier_read};
ghost use Rattle.spki_core.specs.Laws.Printed.Readings.{oid_law};
ghost use Rattle.standard.specs.Statement as standard;

use crate::object_identifier::{
    AssociatedOid, ObjectIdentifier, ObjectIdentifierTag, is_identifier,
};
use der_core::{
    Contents, DecodeValue, EncodeValue, Error, ErrorKind, Memory, Prepend, Result, TaggedBy, Writer,
};

/// An object identifier over its contents octets (X.690 8.19). Only `to_object_identifier` copies them.
#[derive(Clone, Copy, Drop)]
pub struct IdentifierView<'a> {
    octets: &'a [u8],
    ghost valid: { IsTrue (specs.is_identifier octets.now) },
    ghost bytes: { (i : ℕ) → slice_index octets.now i < 256 },
}

impl<'a> IdentifierView<'a> {
    ghost use Rattle.spki_core.specs.Words.{own_octets_of, identifier_octets};

    /// The identifier with these contents octets, which are known to be one. `from_bytes` tests them.
    #[inline(always)]
    pub fn over(octets: &'a [u8]) -> IdentifierView<'a>
        requires { IsTrue (specs.is_identifier octets.now) }
        ensures { identifier_octets result ≡ octets.now }
    {
        IdentifierView { octets }
    }

    /// The identifier with these contents octets. `OidMalformed` exactly if they are those of none.
    #[inline(always)]
    pub fn from_bytes(bytes: &'a [u8]) -> Result<IdentifierView<'a>>
        ensures ok { IfOk result (λ oid. IsIdentifier bytes.now × (identifier_octets oid ≡ bytes.now)) }
        ensures err { IfErr result (λ e. (e.kind ≡ ErrorKind.OidMalformed) × (IsIdentifier bytes.now → ⊥)) }
        ensures exact { Answers identifier_octets result (identifier_read bytes.now) }
    {
        if !is_identifier(bytes) {
            return Err(Error::new(ErrorKind::OidMalformed));
        }
        Ok(IdentifierView::over(bytes))
    }

    /// The contents octets, which are valid: at least one, at most 39.
    #[inline(always)]
    pub fn as_bytes(&self) -> &'a [u8]
        ensures octets { result.now ≡ identifier_octets self.now }
        ensures valid { IsIdentifier (identifier_octets self.now) }
    {
        self.octets
    }

    /// Copies the octets.
    #[inline(always)]
    pub fn to_object_identifier(self) -> ObjectIdentifier
        ensures { own_octets_of result ≡ identifier_octets self.entry }
    {
        ObjectIdentifier::new(self.octets)
    }
}

/// A type that holds an object identifier: `ObjectIdentifier` or `IdentifierView`.
pub trait IdentifierValue: Sized {
    ghost use Rattle.spki_core.specs.Words.{identifier_octets};

    /// The contents octets that are held.
    ghost octets: { Self → List ℕ };

    /// The identifier of an algorithm.
    fn named<D: AssociatedOid>() -> Self
        ensures { octets result ≡ D.contents };

    /// The identifier, borrowed.
    fn as_identifier_view(&self) -> IdentifierView<'_>
        ensures { identifier_octets result ≡ octets self.now };

    /// What is held is the contents of an object identifier.
    ghost identifies: { (oid : Self) → IsIdentifier (octets oid) };
}

impl<'a> IdentifierValue for IdentifierView<'a> {
    ghost use Rattle.spki_core.specs.Words.{identifier_octets, viewed_held};

    ghost octets = { identifier_octets };

    #[inline(always)]
    fn named<D: AssociatedOid>() -> IdentifierView<'a> {
        IdentifierView::over(D::octets())
    }

    #[inline(always)]
    fn as_identifier_view(&self) -> IdentifierView<'_> {
        *self
    }

    ghost identifies = { viewed_held };
}

impl IdentifierValue for ObjectIdentifier {
    ghost use Rattle.spki_core.specs.Words.{own_octets_of, identifier_held};

    ghost octets = { own_octets_of };

    #[inline(always)]
    fn named<D: AssociatedOid>() -> ObjectIdentifier {
        ObjectIdentifier::of::<D>()
    }

    #[inline(always)]
    fn as_identifier_view(&self) -> IdentifierView<'_> {
        IdentifierView::over(self.as_bytes())
    }

    ghost identifies = { identifier_held };
}

impl Contents for IdentifierView<'_> {
    ghost use Rattle.spki_core.specs.Words.{identifier_octets};

    ghost Value = { List ℕ };

    ghost value = { identifier_octets };

    ghost Spelling = { List ℕ };

    ghost means = { λ oid. oid };

    ghost written = { λ oid. oid };

    ghost valid = { standard.IsIdentifier };

    ghost printed = { λ oid. oid };

    ghost read_spelling = { identifier_read };

    ghost read = { identifier_read };

    ghost law = { oid_law };

    ghost shortest = { one_spelling_shortest standard.IsIdentifier (λ oid. oid) };

    ghost reads_alike = { reading_alike identifier_read };

    ghost begins = { begins_with_any };
}

impl TaggedBy for IdentifierView<'_> {
    type Marker = ObjectIdentifierTag;
}

impl<'a, M: Memory> DecodeValue<&'a [u8], M> for IdentifierView<'a> {
    ghost may_allocate = { λ _. ⊥ };

    ghost asks_memory = { nothing_asked };

    #[inline(always)]
    fn read_value(_memory: M, contents: &'a [u8]) -> Result<IdentifierView<'a>> {
        IdentifierView::from_bytes(contents)
    }
}

impl EncodeValue for IdentifierView<'_> {
    ghost refused = { λ _. ⊥ };

    #[inline(always)]
    fn check_value(&self) -> Result<()> {
        Ok(())
    }

    #[inline(always)]
    fn prepend_value<W: Prepend>(&self, writer: &mut W) {
        writer.prepend(self.as_bytes());
    }

    fn append_value<W: Writer>(&self, writer: &mut W) -> Result<()> {
        writer.write(self.as_bytes())
    }
}
