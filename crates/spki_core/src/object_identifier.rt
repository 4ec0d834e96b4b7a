//! Object identifiers.
ghost use Rattle.std.specs.Prelude.{◌≡◌, ◌-◌, ℕ, ◌≤◌, ◌<◌, List, length, take, drop, slice_index, IsTrue, IfOk, IfErr, true, bytes_eq};
ghost use Rattle.std.proofs.Math.ListN.{replicate};
ghost use Rattle.spki_core.specs.IdentifierTest as specs;
ghost use Rattle.spki_core.specs.Identifiers.{IsIdentifier};
ghost use Rattle.der_core.specs.Words.{Answers, begins_with_any, nothing_asked, object_identifier_tag, one_spelling_shortest, reading_alike};
ghost use Rattle.spki_core.specs.Readings.{identifier_read};
ghost use Rattle.spki_core.specs.Laws.Printed.Readings.{oid_law};
ghost use Rattle.standard.specs.Statement as standard;
ghost use Rattle.std.proofs.Common.{rules};
ghost use Rattle.std.specs.Hash as fed;
ghost use Rattle.std.specs.Cmp.Rules.{comparing, hashing};

use crate::identifier_view::IdentifierView;
use der_core::{
    Contents, DecodeValue, EncodeValue, EqualByValue, ErrorKind, Memory, Prepend, Result, Tag,
    TagMarker, TaggedBy, Writer,
};
use std::hash::{Hash, Hasher};

/// An object identifier as its contents octets (X.690 8.19): at most 39, so nothing is allocated.
#[derive(Clone, Copy, Debug, Drop)]
pub struct ObjectIdentifier {
    octets: [u8; 39],
    length: u8,
    ghost fits: { length ≤ 39 },
    ghost valid: { IsTrue (specs.is_identifier (take length octets)) },
    ghost bytes: { (i : ℕ) → slice_index (take length octets) i < 256 },
}

/// Whether a subidentifier starts at the index: no octets precede it, or the last of a subidentifier does.
fn is_start(octets: &[u8], index: usize) -> bool
    requires { index ≤ length octets.now }
    ensures { result ≡ specs.starts_at octets.now index }
{
    index == 0 || octets[index - 1] < 0x80
}

/// Whether no octet is 80, eight or four at a time.
fn has_no_80(octets: &[u8]) -> bool
    ensures { result ≡ specs.has_no_128 octets.now }
{
    match octets {
        [a, b, c, d, e, f, g, h, later @ ..] => {
            let eight = (*a != 0x80)
                & (*b != 0x80)
                & (*c != 0x80)
                & (*d != 0x80)
                & (*e != 0x80)
                & (*f != 0x80)
                & (*g != 0x80)
                & (*h != 0x80);
            eight && has_no_80(later)
        }
        [a, b, c, d, later @ ..] => {
            let four = (*a != 0x80) & (*b != 0x80) & (*c != 0x80) & (*d != 0x80);
            four && has_no_80(later)
        }
        [a, later @ ..] => *a != 0x80 && has_no_80(later),
        [] => true,
    }
}

/// Whether these are whole subidentifiers, for sure: no octet is 80, and the last one ends a subidentifier.
#[inline(always)]
#[tactic(auto, using(crate::proofs::Octets::ends_well_plain))]
fn ends_plainly(octets: &[u8]) -> bool
    ensures { IsTrue result → specs.ends_well true octets.now ≡ true }
{
    match octets {
        [front @ .., last] => *last < 0x80 && has_no_80(front),
        [] => false,
    }
}

/// Whether the octets are one or more whole subidentifiers, of at most 39 octets together.
#[inline(always)]
pub(crate) fn is_identifier(octets: &[u8]) -> bool
    ensures { result ≡ specs.is_identifier octets.now }
{
    !octets.is_empty() && octets.len() <= 39 && (ends_plainly(octets) || ends_well(octets))
}

/// Whether these are whole subidentifiers, octet by octet.
#[tactic(auto, using(crate::proofs::Octets::ends_well_next))]
fn ends_well(octets: &[u8]) -> bool
    ensures { result ≡ specs.ends_well true octets.now }
{
    for index in 0..octets.len() {
        if octets[index] == 0x80 && is_start(octets, index) {
            return false;
        }
    }
    is_start(octets, octets.len())
}

/// A type that names an algorithm, by its object identifier.
pub trait AssociatedOid {
    /// The contents octets of the identifier.
    ghost contents: { List ℕ };

    /// They are the contents of an object identifier.
    ghost valid: { IsTrue (specs.is_identifier contents) };

    /// The contents octets of the identifier (X.690 8.19), without tag and length. They must be those of `octets`: no
    /// proof compares them.
    const OID: &'static [u8];

    /// `OID`, the contents octets of the identifier, for contracts.
    fn octets() -> &'static [u8]
        ensures { result.now ≡ contents };
}

/// The octets with zeros after them.
fn with_zeros(octets: &[u8]) -> [u8; 39]
    requires { length octets.now ≤ 39 }
    ensures octets { take (length octets.now) result ≡ octets.now }
    ensures zeros { drop (length octets.now) result ≡ replicate (39 - length octets.now) 0 }
{
    let mut padded = [0; 39];
    padded[..octets.len()].copy_from_slice(octets);
    padded
}

impl ObjectIdentifier {
    ghost use Rattle.spki_core.specs.Words.{own_octets_of};

    /// The octets are known to be valid.
    pub(crate) fn new(bytes: &[u8]) -> ObjectIdentifier
        requires { IsTrue (specs.is_identifier bytes.now) }
        ensures { own_octets_of result ≡ bytes.now }
    {
        ObjectIdentifier {
            octets: with_zeros(bytes),
            length: bytes.len() as u8,
        }
    }

    /// The identifier with these contents octets. `OidMalformed` exactly if they are those of none.
    pub fn from_bytes(bytes: &[u8]) -> Result<ObjectIdentifier>
        ensures ok { IfOk result (λ oid. IsIdentifier bytes.now × (own_octets_of oid ≡ bytes.now)) }
        ensures err { IfErr result (λ e. (e.kind ≡ ErrorKind.OidMalformed) × (IsIdentifier bytes.now → ⊥)) }
        ensures exact { Answers own_octets_of result (identifier_read bytes.now) }
    {
        Ok(IdentifierView::from_bytes(bytes)?.to_object_identifier())
    }

    /// The contents octets, which are valid: at least one, at most 39.
    pub fn as_bytes(&self) -> &[u8]
        ensures octets { result.now ≡ own_octets_of self.now }
        ensures valid { IsIdentifier (own_octets_of self.now) }
    {
        &self.octets[..self.length as usize]
    }

    /// The identifier of an algorithm.
    #[inline(always)]
    pub fn of<D: AssociatedOid>() -> ObjectIdentifier
        ensures { own_octets_of result ≡ D.contents }
    {
        ObjectIdentifier::new(D::octets())
    }
}

impl PartialEq for ObjectIdentifier {
    ghost use Rattle.spki_core.specs.Words.{own_octets_of};

    ghost eq = { λ a b. bytes_eq (own_octets_of a) (own_octets_of b) };

    ghost laws = { Prim.search (comparing, rules) };

    /// True exactly if the octets are equal.
    fn eq(&self, other: &ObjectIdentifier) -> bool {
        self.as_bytes() == other.as_bytes()
    }
}

impl Eq for ObjectIdentifier {
    ghost laws = { Prim.search (comparing, rules) };
}

impl Hash for ObjectIdentifier {
    ghost use Rattle.spki_core.specs.Words.{own_octets_of};

    ghost hash_input = { λ oid. fed.slice fed.u8 (own_octets_of oid) };

    ghost respects_eq = { Prim.search (hashing, rules) };

    /// Hashes the octets, as those of a slice are hashed.
    fn hash<H: Hasher>(&self, state: &mut H) {
        self.as_bytes().hash(state);
    }
}

/// The tag of OBJECT IDENTIFIER.
#[derive(Drop)]
pub struct ObjectIdentifierTag;

impl TagMarker for ObjectIdentifierTag {
    ghost TAG = { object_identifier_tag };

    const TAG: Tag = Tag::OBJECT_IDENTIFIER;
}

impl Contents for ObjectIdentifier {
    ghost use Rattle.spki_core.specs.Words.{own_octets_of};

    ghost Value = { List ℕ };

    ghost value = { own_octets_of };

    ghost Spelling = { List ℕ };

    ghost means = { λ oid. oid };

    ghost written = { λ oid. oid };

    ghost valid = { standard.IsIdentifier };

    ghost printed = { λ oid. oid };

    ghost read_spelling = { identifier_read };

    ghost read = { identifier_read };

    ghost law = { oid_law };

    ghost shortest = { one_spelling_shortest standard.IsIdentifier (λ oid. oid) };

    ghost reads_alike = { reading_alike identifier_read };

    ghost begins = { begins_with_any };
}

impl TaggedBy for ObjectIdentifier {
    type Marker = ObjectIdentifierTag;
}

impl EqualByValue for ObjectIdentifier {
    ghost use Rattle.spki_core.specs.Words.{own_octets_of};
    ghost use Rattle.der_core.specs.Words.{bytes_decide};

    ghost decides = { λ a b. bytes_decide (own_octets_of a) (own_octets_of b) };
}

impl<'a, M: Memory> DecodeValue<&'a [u8], M> for ObjectIdentifier {
    ghost may_allocate = { λ _. ⊥ };

    ghost asks_memory = { nothing_asked };

    #[inline(always)]
    fn read_value(_memory: M, contents: &'a [u8]) -> Result<ObjectIdentifier> {
        ObjectIdentifier::from_bytes(contents)
    }
}

impl EncodeValue for ObjectIdentifier {
    ghost refused = { λ _. ⊥ };

    #[inline(always)]
    fn check_value(&self) -> Result<()> {
        Ok(())
    }

    #[inline(always)]
    fn prepend_value<W: Prepend>(&self, writer: &mut W) {
        writer.prepend(self.as_bytes());
    }

    fn append_value<W: Writer>(&self, writer: &mut W) -> Result<()> {
        writer.write(self.as_bytes())
    }
}
