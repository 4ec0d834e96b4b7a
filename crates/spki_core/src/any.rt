//! Encodings of any tag.
ghost use Rattle.std.specs.Prelude.{◌≡◌, ◌≤◌, ◌<◌, ℕ, [], length, slice_get, slice_index, refl, true, ⊤, Some, Err, IfOk, IsOk, IfErr, IsTrue};
ghost use Rattle.der_core.specs.Words.{NoValueOrMemory, Prints, Returns, front_alike, is_allowed, limit, nothing_asked, one_spelling_shortest, starts_with_any};
ghost use Rattle.spki_core.specs.Readings.{any_as, any_front};
ghost use Rattle.spki_core.specs.Identifiers.{TagAndContents, null_value};
ghost use Rattle.spki_core.specs.Laws.Printed.Readings.{any_law};
ghost use Rattle.spki_core.specs.Laws.Printed.Shortest.{any_some};
ghost use Rattle.standard.specs.Statement as standard;

use crate::wide_tag::WideTag;
use der_core::{
    Decode, DecodeValue, Encode, Encoding, EqualByValue, Error, ErrorKind, FixedTag, Header,
    Length, Memory, Prepend, Reader, Result, Tag, TryClone, Writer, read_contents, split_encoding,
};
use std::alloc::Global;
use std::fmt;

/// A tag and contents octets, which are opaque. It borrows them.
#[derive(Clone, Copy, Debug, PartialEq, Eq, Drop)]
pub struct AnyRef<'a> {
    tag: WideTag,
    contents: &'a [u8],
    ghost bounded: { length contents.now ≤ limit },
    ghost octets: { (i : ℕ) → slice_index contents.now i < 256 },
}

impl<'a> AnyRef<'a> {
    ghost use Rattle.spki_core.specs.Words.{any_of, same_any};

    /// This tag with these contents.
    /// # Errors
    /// `Overflow` exactly if they are longer than `Length::MAX`.
    pub fn new(tag: Tag, contents: &'a [u8]) -> Result<AnyRef<'a>>
        ensures ok { IfOk result (λ any. any_of any ≡ record { tag = tag.octet; contents = contents.now }) }
        ensures err { IfErr result (λ e. (e.kind ≡ ErrorKind.Overflow) × (limit < length contents.now)) }
    {
        if contents.len() > Length::MAX.to_usize() {
            return Err(Error::new(ErrorKind::Overflow));
        }
        Ok(AnyRef::over(tag, contents))
    }

    /// This tag with these contents.
    #[inline(always)]
    fn over(tag: Tag, contents: &'a [u8]) -> AnyRef<'a>
        requires { length contents.now ≤ limit }
        ensures { any_of result ≡ record { tag = tag.octet; contents = contents.now } }
    {
        AnyRef {
            tag: WideTag::of(tag),
            contents,
        }
    }

    /// NULL (X.690 8.8), which has no contents octets.
    pub const fn null() -> AnyRef<'static>
        ensures { any_of result ≡ null_value }
    {
        AnyRef {
            tag: WideTag::of(Tag::NULL),
            contents: &[],
        }
    }

    /// The tag, of any class and number.
    pub fn tag(&self) -> Tag
        ensures { result.octet ≡ (any_of self.now).tag }
    {
        self.tag.tag()
    }

    /// The contents octets. They are at most `Length::MAX`.
    pub fn value(&self) -> &'a [u8]
        ensures contents { result.now ≡ (any_of self.now).contents }
        ensures bound { length result.now ≤ limit }
    {
        self.contents
    }

    /// Decodes all of the contents octets as those of a `T`. Ok only if the tag is the type's and they are those of a
    /// value: then this value. Err: `TagUnexpected` of another tag, else the first fault of the contents, or
    /// `OutOfMemory` where the type may allocate. Any other kind than `OutOfMemory` means that there is no value.
    pub fn decode_as<T: DecodeValue<&'a [u8], M> + FixedTag, M: Memory>(
        self,
        memory: M,
    ) -> Result<T>
        ensures ok { let any = any_of self.entry in let contents = Prints T.valid T.printed T.means in
            IfOk result (λ value. (any.tag ≡ T.TAG.octet) × contents (T.value value) any.contents) }
        ensures err { let any = any_of self.entry in let contents = Prints T.valid T.printed T.means in
            let no_value : Type 0 = (value : T.Value) → any.tag ≡ T.TAG.octet → contents value any.contents → ⊥ in
            IfErr result (λ e. NoValueOrMemory e.kind (T.may_allocate any.contents) no_value) }
        ensures exact { let held = any_of self.entry in
            let asked = (held.tag ≡ T.TAG.octet) × T.may_allocate held.contents in
            Returns T.value (any_as T.TAG T.read held) asked result }
    {
        if self.tag() != T::TAG {
            return Err(Error::new(ErrorKind::TagUnexpected {
                expected: T::TAG,
                actual: self.tag(),
            }));
        }
        read_contents(memory, self.contents)
    }

    /// Whether it is this tag without contents octets.
    #[inline(always)]
    pub fn is_alone(&self, tag: Tag) -> bool
        ensures { result ≡ same_any (any_of self.now) (record { tag = tag.octet; contents = [] }) }
    {
        self.tag() == tag && self.contents.is_empty()
    }

    fn header(&self) -> Header
        ensures tag { result.tag.octet ≡ self.now.tag.octet }
        ensures length { result.length ≡ length self.now.contents.now }
    {
        Header {
            tag: self.tag(),
            length: Length::of(self.contents.len()),
        }
    }
}

impl Encoding for AnyRef<'_> {
    ghost use Rattle.spki_core.specs.Words.{any_of};

    ghost Value = { TagAndContents };

    ghost value = { any_of };

    ghost Spelling = { TagAndContents };

    ghost means = { λ v. v };

    ghost written = { λ v. v };

    ghost valid = { standard.IsAny };

    ghost printed = { standard.any };

    ghost read_spelling = { any_front };

    ghost read_front = { any_front };

    ghost law = { any_law };

    ghost shortest = { one_spelling_shortest standard.IsAny standard.any };

    ghost some = { any_some };

    ghost reads_alike = { front_alike any_front };

    ghost starts = { starts_with_any standard.any };

    /// True, as any tag may stand in front.
    fn may_start_with(_tag: Tag) -> bool
        ensures { result ≡ true }
    {
        true
    }
}

impl<'a, M: Memory> Decode<&'a [u8], M> for AnyRef<'a> {
    ghost may_allocate = { λ _. ⊥ };

    ghost asks_memory = { nothing_asked };

    #[inline(always)]
    fn read_one(_memory: M, bytes: &'a [u8]) -> Result<(AnyRef<'a>, &'a [u8])> {
        let tag = first_tag(bytes)?;
        let (contents, rest) = split_encoding(bytes, tag)?;
        Ok((AnyRef::over(tag, contents), rest))
    }

    fn decode<R: Reader<&'a [u8]>>(_memory: M, reader: &mut R) -> Result<AnyRef<'a>> {
        let header = Header::decode(reader)?;
        let contents = reader.read_slice(header.length)?;
        let tag = WideTag::of(header.tag);
        Ok(AnyRef { tag, contents })
    }
}

/// The tag in front. `Incomplete` of no byte, `TagUnknown` of an octet that isn't supported.
#[inline(always)]
fn first_tag(bytes: &[u8]) -> Result<Tag>
    ensures ok { IfOk result (λ tag. slice_get bytes.now 0 ≡ Some tag.octet) }
    ensures err { IfErr result (λ e. any_front bytes.now ≡ Err e.kind) }
{
    match bytes {
        [octet, ..] => Tag::from_octet(*octet),
        [] => Err(Error::new(ErrorKind::Incomplete)),
    }
}

impl Encode for AnyRef<'_> {
    ghost refused = { λ _. ⊥ };

    #[inline(always)]
    fn check(&self) -> Result<()> {
        Ok(())
    }

    #[inline(always)]
    fn prepend<W: Prepend>(&self, writer: &mut W) {
        let before = writer.filled_len();
        writer.prepend(self.contents);
        writer.prepend_header(self.tag(), before);
    }

    fn append<W: Writer>(&self, writer: &mut W) -> Result<()> {
        writer.write(&self.header().to_bytes())?;
        writer.write(self.contents)
    }
}

impl<'a> TryClone for AnyRef<'a> {
    ghost use Rattle.spki_core.specs.Words.{any_of};

    ghost never_out_of_memory = { λ _. ⊤ };

    /// The same tag, over the same contents. Never `OutOfMemory`.
    fn try_clone(&self, _alloc: Global) -> Result<AnyRef<'a>>
        ensures ok { IfOk result (λ copy. any_of copy ≡ any_of self.now) }
        ensures err { IfErr result (λ e. e.kind ≡ ErrorKind.OutOfMemory) }
        ensures may_allocate { IsOk result }
    {
        Ok(*self)
    }
}

/// A type that holds a tag with contents octets, and is encoded as these.
pub trait AnyValue: EqualByValue + Encode {
    ghost use Rattle.spki_core.specs.Words.{any_of, HoldsAny, WritesAs};

    /// The tag and contents that are held.
    ghost any: { Self → TagAndContents };

    /// The tag and contents, borrowed.
    fn as_any_ref(&self) -> AnyRef<'_>
        ensures { any_of result ≡ any self.now };

    /// The tag and contents are what the value means.
    ghost holds: { HoldsAny Self.value Self.any };

    /// What is written is the encoding of the tag and contents.
    ghost writes: { WritesAs Self.value (λ v. Self.valid (Self.written v)) (λ v. Self.printed (Self.written v)) Self.any
        standard.IsAny standard.any };

    /// The tag and contents that are held have an encoding.
    ghost held: { (x : Self) → standard.IsAny (any x) };
}

impl EqualByValue for AnyRef<'_> {
    ghost use Rattle.spki_core.specs.Words.{any_decides};

    ghost decides = { λ a b. any_decides a.tag.octet b.tag.octet a.contents.now b.contents.now };
}

impl AnyValue for AnyRef<'_> {
    ghost use Rattle.spki_core.specs.Words.{any_of, holds_itself, any_held, writes_itself};

    ghost any = { any_of };

    fn as_any_ref(&self) -> AnyRef<'_> {
        *self
    }

    ghost holds = { holds_itself any_of };

    ghost writes = { writes_itself any_of standard.IsAny standard.any };

    ghost held = { any_held };
}

/// Parameters that are encodings of any tag, and can be made without allocating.
pub trait AnyParams<M: Memory>: AnyValue + Sized {
    /// The tag without contents octets.
    fn empty(memory: M, tag: Tag) -> Self
        ensures { Self.any result ≡ record { tag = tag.octet; contents = [] } };
}

impl<'a, M: Memory> AnyParams<M> for AnyRef<'a> {
    fn empty(_memory: M, tag: Tag) -> AnyRef<'a> {
        let tag = WideTag::of(tag);
        AnyRef { tag, contents: &[] }
    }
}
