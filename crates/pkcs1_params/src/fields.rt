//! The fields of parameters, and writing them under a mask that says which defaults are written.
ghost use Rattle.std.specs.Prelude.{◌≡◌, ◌≤◌, ◌<◌, ◌+◌, ◌*◌, ◌^◌, ⊤, List, [], ◌∷◌, length};
ghost use Rattle.der_core.specs.Words.{Appends, context_octet, limit, tlv};
ghost use Rattle.spki_core.specs.Words.{WrittenField, are_defaults, defaults_in, octets_under, out_under, rest_under};
ghost use Rattle.pkcs1_params.specs.Words.{bits_of, field_in, field_number};
ghost use Rattle.pkcs1_params.specs.DefaultBits.{bit_of};

use crate::holders::{MaskHolder, PlainHolder};
use crate::pss::RsaPssParamsRef;
use crate::trailer_field::TrailerField;
use der_core::{Encode, Prepend, Result, TagNumber, Writer};
use spki_core::ContextSpecificRef;

/// A field with its value. A `Plain` holds a hash function or a label source, a `Mask` a mask generation function.
#[derive(Drop)]
pub enum FieldRef<'b, Plain, Mask> {
    Hash(&'b Plain),
    MaskGen(&'b Mask),
    SaltLen(u8),
    Trailer(TrailerField),
    PSource(&'b Plain),
}

impl<Plain: PlainHolder, Mask: MaskHolder> FieldRef<'_, Plain, Mask> {
    #[inline(always)]
    fn number(&self) -> TagNumber
        ensures { result.value ≡ field_number self.now }
    {
        TagNumber::new(match self {
            FieldRef::Hash(_) => 0,
            FieldRef::MaskGen(_) => 1,
            FieldRef::SaltLen(_) => 2,
            FieldRef::Trailer(_) => 3,
            FieldRef::PSource(_) => 2,
        })
    }

    /// Whether the value is the default.
    #[inline(always)]
    pub(crate) fn is_default(&self) -> bool
        ensures { result ≡ (field_in Plain.plain Mask.mask self.now).is_default }
    {
        match *self {
            FieldRef::Hash(hash) => hash.is_default_hash(),
            FieldRef::MaskGen(mask_gen) => mask_gen.is_default(),
            FieldRef::SaltLen(salt_len) => salt_len == RsaPssParamsRef::SALT_LEN_DEFAULT,
            FieldRef::Trailer(trailer) => trailer == TrailerField::BC,
            FieldRef::PSource(p_source) => p_source.is_default_source(),
        }
    }

    /// Appends the field.
    fn append<W: Writer>(&self, writer: &mut W) -> Result<()>
        requires { length (field_in Plain.plain Mask.mask self.now).octets ≤ limit }
        ensures appends { let octets = (field_in Plain.plain Mask.mask self.now).octets in
            Appends ⊤ octets W.room W.written writer.old writer.new result }
        ensures kept { W.keeps writer.old writer.new }
    {
        let number = self.number();
        match *self {
            FieldRef::Hash(hash) => append_field(number, hash, writer),
            FieldRef::MaskGen(mask_gen) => append_field(number, mask_gen, writer),
            FieldRef::SaltLen(salt_len) => append_field(number, &salt_len, writer),
            FieldRef::Trailer(trailer) => append_field(number, &trailer, writer),
            FieldRef::PSource(p_source) => append_field(number, p_source, writer),
        }
    }

    /// Writes the field in front of what was received, or counts it.
    #[inline(always)]
    fn prepend<W: Prepend>(&self, writer: &mut W)
        requires { let n = length (field_in Plain.plain Mask.mask self.now).octets in
            W.has_room writer.old n × W.length_fits n }
        ensures { W.prepended (field_in Plain.plain Mask.mask self.now).octets writer.old writer.new }
    {
        let number = self.number();
        match *self {
            FieldRef::Hash(hash) => prepend_field(number, hash, writer),
            FieldRef::MaskGen(mask_gen) => prepend_field(number, mask_gen, writer),
            FieldRef::SaltLen(salt_len) => prepend_field(number, &salt_len, writer),
            FieldRef::Trailer(trailer) => prepend_field(number, &trailer, writer),
            FieldRef::PSource(p_source) => prepend_field(number, p_source, writer),
        }
    }
}

/// Appends a field.
fn append_field<T: Encode, W: Writer>(
    tag_number: TagNumber,
    value: &T,
    writer: &mut W,
) -> Result<()>
    requires has { T.valid (T.written (T.value value.now)) }
    requires fits { length (tlv (context_octet tag_number.value) (T.printed (T.written (T.value value.now)))) ≤ limit }
    ensures appends { let s = T.written (T.value value.now) in
        let octets = tlv (context_octet tag_number.value) (T.printed s) in
        Appends (T.valid s) octets W.room W.written writer.old writer.new result }
    ensures kept { W.keeps writer.old writer.new }
{
    ContextSpecificRef { tag_number, value }.append(writer)
}

/// Writes a field in front of what was received, or counts it.
#[inline(never)]
fn prepend_field<T: Encode, W: Prepend>(tag_number: TagNumber, value: &T, writer: &mut W)
    requires has { T.valid (T.written (T.value value.now)) }
    requires room { let octets = tlv (context_octet tag_number.value) (T.printed (T.written (T.value value.now))) in
        W.has_room writer.old (length octets) × W.length_fits (length octets) }
    ensures { let octets = tlv (context_octet tag_number.value) (T.printed (T.written (T.value value.now))) in
        W.prepended octets writer.old writer.new }
{
    ContextSpecificRef { tag_number, value }.prepend(writer);
}

/// Whether the field is left out, and the mask for the later ones.
#[inline(always)]
pub(crate) fn take_mask_bit(default: bool, mask: u8) -> (bool, u8)
    ensures { result ≡ (out_under default mask, rest_under default mask) }
{
    if default {
        (mask % 2 == 0, mask / 2)
    } else {
        (false, mask)
    }
}

/// Whether the field has its default, and the bits for the later ones.
#[inline(always)]
fn split_non_defaults<Plain: PlainHolder, Mask: MaskHolder, L: Fields>(
    non_defaults: u8,
    _field: &FieldRef<'_, Plain, Mask>,
    _later: &L,
) -> (bool, u8)
    requires { let field = field_in Plain.plain Mask.mask _field.now in
        non_defaults ≡ bit_of field.is_default + 2 * bits_of (are_defaults (L.written _later.now)) }
    ensures { let field = field_in Plain.plain Mask.mask _field.now in
        result ≡ (field.is_default, bits_of (are_defaults (L.written _later.now))) }
{
    (non_defaults % 2 == 0, non_defaults / 2)
}

/// Fields with their values, in order. Each list has a type of its own, so that code for it has no loop.
pub trait Fields: Drop {
    /// The fields as they are written, in order.
    ghost written: { Self → List WrittenField };

    /// Which fields differ from their defaults, as bits: bit j is that of field j.
    fn non_defaults(&self) -> u8
        requires { length (written self.now) ≤ 7 }
        ensures is { result ≡ bits_of (are_defaults (written self.now)) }
        ensures few { result < 2 ^ length (written self.now) };

    /// How many of the fields have their defaults.
    fn count_defaults(&self) -> u8
        requires { length (written self.now) ≤ 7 }
        ensures count { result ≡ defaults_in (written self.now) }
        ensures few { result ≤ length (written self.now) };

    /// Appends the fields under a mask. Bit j of `non_defaults` says whether field j differs from its default.
    fn append<W: Writer>(&self, non_defaults: u8, mask: u8, writer: &mut W) -> Result<()>
        requires non_defaults { non_defaults ≡ bits_of (are_defaults (written self.now)) }
        requires fits { length (octets_under mask (written self.now)) ≤ limit }
        ensures appends { let octets = octets_under mask (written self.now) in
            Appends ⊤ octets W.room W.written writer.old writer.new result }
        ensures kept { W.keeps writer.old writer.new };

    /// Writes the fields under a mask in front of what was received, the last one first, or counts them.
    fn prepend<W: Prepend>(&self, non_defaults: u8, mask: u8, writer: &mut W)
        requires non_defaults { non_defaults ≡ bits_of (are_defaults (written self.now)) }
        requires room { let n = length (octets_under mask (written self.now)) in
            W.has_room writer.old n × W.length_fits n }
        ensures { W.prepended (octets_under mask (written self.now)) writer.old writer.new };
}

/// No field.
#[derive(Drop)]
pub struct NoField;

/// A field and the later ones.
#[derive(Drop)]
pub struct FieldThen<'b, Plain, Mask, L> {
    pub(crate) first: FieldRef<'b, Plain, Mask>,
    pub(crate) later: L,
}

impl Fields for NoField {
    ghost written = { λ _. [] };

    #[inline(always)]
    fn non_defaults(&self) -> u8 {
        0
    }

    #[inline(always)]
    fn count_defaults(&self) -> u8 {
        0
    }

    #[inline(always)]
    fn append<W: Writer>(&self, _non_defaults: u8, _mask: u8, _writer: &mut W) -> Result<()> {
        Ok(())
    }

    #[inline(always)]
    fn prepend<W: Prepend>(&self, _non_defaults: u8, _mask: u8, _writer: &mut W) {}
}

impl<Plain: PlainHolder, Mask: MaskHolder, L: Fields> Fields for FieldThen<'_, Plain, Mask, L> {
    ghost written = { λ fields. field_in Plain.plain Mask.mask fields.first ∷ L.written fields.later };

    #[inline(always)]
    fn non_defaults(&self) -> u8 {
        u8::from(!self.first.is_default()) + 2 * self.later.non_defaults()
    }

    #[inline(always)]
    fn count_defaults(&self) -> u8 {
        u8::from(self.first.is_default()) + self.later.count_defaults()
    }

    #[inline(always)]
    fn append<W: Writer>(&self, non_defaults: u8, mask: u8, writer: &mut W) -> Result<()> {
        let (default, non_defaults) = split_non_defaults(non_defaults, &self.first, &self.later);
        let (left_out, mask) = take_mask_bit(default, mask);
        if left_out {
            return self.later.append(non_defaults, mask, writer);
        }
        self.first.append(writer)?;
        self.later.append(non_defaults, mask, writer)
    }

    #[inline(always)]
    fn prepend<W: Prepend>(&self, non_defaults: u8, mask: u8, writer: &mut W) {
        let (default, non_defaults) = split_non_defaults(non_defaults, &self.first, &self.later);
        let (left_out, mask) = take_mask_bit(default, mask);
        self.later.prepend(non_defaults, mask, writer);
        if !left_out {
            self.first.prepend(writer);
        }
    }
}
