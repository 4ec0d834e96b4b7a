//! Explicit fields with defaults (X.690 8.14.2, 11.5).
ghost use Rattle.std.specs.Prelude.{◌≡◌, ◌≤◌, ◌+◌, ℕ, length, IfOk, option_map};
ghost use Rattle.der_core.specs.Words.{limit, AllocatesAtFront, Returns, context_octet, is_next, OptionalRead, Prints, ReadsBy, ReadsFronts, Tlv, optional_front};
ghost use Rattle.spki_core.specs.Words.{FieldAllocates, FieldRead, defaulted, explicit, noted_on, tag_number_in};

use der_core::{
    Containing, Decode, Encoding, Memory, Result, Tag, TagNumber, begins_with, read_tagged,
};

/// The value of an explicit field in front, or the default if the first octet isn't that of its tag, and what follows.
/// Err: the first fault, or `OutOfMemory`.
#[inline(always)]
pub fn read_field<'a, T: Decode<&'a [u8], M>, M: Memory>(
    memory: M,
    bytes: &'a [u8],
    number: TagNumber,
    default: T,
) -> Result<(T, &'a [u8])>
    requires { length bytes.now ≤ limit }
    ensures read { let at = defaulted number.value T.read_front (T.value default) in
        let asked = AllocatesAtFront (FieldAllocates number.value T.Decode.may_allocate) bytes.now in
        Returns (λ split. (T.value split.0, split.1.now)) (at bytes.now) asked result }
    ensures rest { IfOk result (λ split. length split.1.now ≤ limit) }
{
    let tag = Tag::context(number);
    if !begins_with(bytes, tag) {
        return Ok((default, bytes));
    }
    let (inside, rest) = read_tagged::<Containing<T>, M>(memory, bytes, tag)?;
    Ok((inside.0, rest))
}

/// What is noted of a field that was read at the front of these bytes: the first field that was noted, or this one, if
/// it is there with its default.
#[inline(always)]
pub fn note(
    noted: Option<TagNumber>,
    bytes: &[u8],
    number: TagNumber,
    is_default: bool,
) -> Option<TagNumber>
    ensures { let there = is_next (context_octet number.value) bytes.now in
        option_map tag_number_in result ≡ noted_on number.value there is_default (option_map tag_number_in noted) }
{
    match noted {
        Some(first) => Some(first),
        None if begins_with(bytes, Tag::context(number)) && is_default => Some(number),
        None => None,
    }
}

/// What `read_context_specific` reads is a tag with one encoding inside, or nothing where the octet of the tag isn't next.
/// In place of nothing, `read_field` gives the default.
pub fn lemma_fields_are_read<T: Encoding>()
    ensures explicit { (n : ℕ) → n ≤ 30
        → ReadsFronts (λ v. Tlv (context_octet n) (Prints T.valid T.printed T.means v)) (explicit n T.read_front) }
    ensures optional { (n : ℕ) → n ≤ 30
        → ReadsBy (OptionalRead (context_octet n) (λ v. Tlv (context_octet n) (Prints T.valid T.printed T.means v)))
        (optional_front (context_octet n) (explicit n T.read_front)) }
    ensures default { (n : ℕ) (default : T.Value) → n ≤ 30
        → ReadsBy (FieldRead n (Prints T.valid T.printed T.means) default) (defaulted n T.read_front default) }
{}
