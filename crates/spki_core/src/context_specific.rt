//! Values inside explicit context-specific tags (X.690 8.14.2).
ghost use Rattle.std.specs.Prelude.{◌≡◌, ◌+◌, true, option_map};
ghost use Rattle.der_core.specs.Words.{context_octet, ReadsFront, optional_front, starts_with_any};
ghost use Rattle.spki_core.specs.Words.{FieldAllocates, explicit, numbered, Numbered, HasNumbered, numbered_alike, numbered_law, numbered_map, numbered_some, numbered_writes_shortest, written_numbered};

use der_core::{
    Containing, Counter, Decode, Encode, Encoding, Header, Length, Memory, Prepend, Reader, Result,
    Tag, TagNumber, Writer, decode_tagged, is_tag_next,
};

/// A borrowed value that is written inside the tag `[tag_number]`.
#[derive(Clone, Copy, Drop)]
pub struct ContextSpecificRef<'b, T> {
    /// The number of the tag.
    pub tag_number: TagNumber,
    /// The value. Its encoding is the contents of the tag.
    pub value: &'b T,
}

impl<'b, T> ContextSpecificRef<'b, T> {
    fn tag(&self) -> Tag
        ensures { result.octet ≡ context_octet self.now.tag_number.value }
    {
        Tag::context(self.tag_number)
    }
}

impl<'b, T: Encoding> Encoding for ContextSpecificRef<'b, T> {
    ghost Value = { Numbered T.Value };

    ghost value = { λ v. record { number = v.tag_number.value; value = T.value v.value.now } };

    ghost Spelling = { Numbered T.Spelling };

    ghost means = { numbered_map T.means };

    ghost written = { numbered_map T.written };

    ghost valid = { HasNumbered T.valid };

    ghost printed = { written_numbered T.printed };

    ghost read_spelling = { numbered T.read_spelling };

    ghost read_front = { numbered T.read_front };

    ghost law = { numbered_law T.law };

    ghost shortest = { numbered_writes_shortest T.shortest };

    ghost some = { numbered_some T.printed };

    ghost reads_alike = { numbered_alike T.reads_alike };

    ghost starts = { starts_with_any (written_numbered T.printed) };

    /// True, as fields of any number may be meant.
    fn may_start_with(_tag: Tag) -> bool
        ensures { result ≡ true }
    {
        true
    }
}

impl<'b, T: Encode> Encode for ContextSpecificRef<'b, T> {
    ghost refused = { T.Encode.refused };

    #[inline(always)]
    fn check(&self) -> Result<()> {
        self.value.check()
    }

    #[inline(always)]
    fn prepend<W: Prepend>(&self, writer: &mut W) {
        let before = writer.filled_len();
        self.value.prepend(writer);
        writer.prepend_header(self.tag(), before);
    }

    fn append<W: Writer>(&self, writer: &mut W) -> Result<()> {
        let mut counter = Counter::new();
        self.value.prepend(&mut counter);
        let header = Header {
            tag: self.tag(),
            length: Length::of(counter.filled_len() as usize),
        };
        writer.write(&header.to_bytes())?;
        self.value.append(writer)
    }
}

/// Reads an explicit field if the next octet is that of its tag, else returns `None` and reads nothing. `TrailingData`
/// if bytes follow the encoding inside the tag. `Failed` on a reader that has failed.
pub fn read_context_specific<'a, T: Decode<&'a [u8], M>, M: Memory, R: Reader<&'a [u8]>>(
    memory: M,
    reader: &mut R,
    number: TagNumber,
) -> Result<Option<T>>
    ensures { let tag = context_octet number.value in
        let may = FieldAllocates number.value T.Decode.may_allocate in
        let at = optional_front tag (explicit number.value T.read_front) in
        ReadsFront (option_map T.value) at may result (R.left reader.old) (R.left reader.new) }
{
    if !is_tag_next(reader, Tag::context(number))? {
        return Ok(None);
    }
    let value = read_explicit(memory, reader, number)?;
    Ok(Some(value))
}

/// Reads the tag of a field with one encoding inside.
fn read_explicit<'a, T: Decode<&'a [u8], M>, M: Memory, R: Reader<&'a [u8]>>(
    memory: M,
    reader: &mut R,
    number: TagNumber,
) -> Result<T>
    ensures { let may = FieldAllocates number.value T.Decode.may_allocate in
        let at = explicit number.value T.read_front in
        ReadsFront T.value at may result (R.left reader.old) (R.left reader.new) }
{
    let inside: Containing<T> = decode_tagged(memory, reader, Tag::context(number))?;
    Ok(inside.0)
}
