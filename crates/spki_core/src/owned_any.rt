//! Encodings of any tag that own their contents.
ghost use Rattle.std.specs.Prelude.{◌≡◌, ◌≤◌, ◌<◌, ◌⊎◌, ℕ, length, slice_index, true, IfOk, IfErr};
ghost use Rattle.der_core.specs.Words.{limit, Prints, front_alike, one_spelling_shortest, starts_with_any};
ghost use Rattle.spki_core.specs.Readings.{any_front};
ghost use Rattle.spki_core.specs.Identifiers.{TagAndContents};
ghost use Rattle.spki_core.specs.Laws.Printed.Readings.{any_law};
ghost use Rattle.spki_core.specs.Laws.Printed.Shortest.{any_some};
ghost use Rattle.standard.specs.Statement as standard;

use crate::any::{AnyParams, AnyRef, AnyValue};
use der_core::{
    Decode, Encode, Encoding, EqualByValue, Error, ErrorKind, Length, NoMemory, Prepend, Reader,
    Result, Tag, TryClone, Writer,
};
use std::alloc::Global;

/// A tag and contents octets, which are opaque. It owns them.
#[derive(Debug, PartialEq, Eq, Drop)]
pub struct Any {
    tag: Tag,
    contents: Vec<u8>,
    ghost bounded: { length contents.items ≤ limit },
    ghost octets: { (i : ℕ) → slice_index contents.items i < 256 },
}

impl Any {
    ghost use Rattle.spki_core.specs.Words.{own_any_of, any_of};

    /// A copy of these contents, with this tag. `Overflow` exactly if they are longer than `Length::MAX`, else
    /// `OutOfMemory` if there is no memory for them.
    pub fn new(alloc: Global, tag: Tag, contents: &[u8]) -> Result<Any>
        ensures ok { IfOk result (λ any. own_any_of any ≡ record { tag = tag.octet; contents = contents.now }) }
        ensures err { let many : Type 0 = limit < length contents.now in
            let fits : Type 0 = length contents.now ≤ limit in
            IfErr result (λ e. ((e.kind ≡ ErrorKind.Overflow) × many) ⊎ ((e.kind ≡ ErrorKind.OutOfMemory) × fits)) }
    {
        if contents.len() > Length::MAX.to_usize() {
            return Err(Error::new(ErrorKind::Overflow));
        }
        Any::copy_of(alloc, tag, contents)
    }

    /// The tag and contents, borrowed. `AnyValue` has it too, for code that is generic over its holders.
    pub fn as_any_ref(&self) -> AnyRef<'_>
        ensures { any_of result ≡ own_any_of self.now }
    {
        match AnyRef::new(self.tag, self.contents.as_slice()) {
            Ok(any) => any,
            Err(_) => unreachable!(),
        }
    }

    /// A copy of the tag and contents. The only error is `OutOfMemory`.
    pub fn try_clone(&self, alloc: Global) -> Result<Any>
        ensures ok { IfOk result (λ copy. own_any_of copy ≡ own_any_of self.now) }
        ensures err { IfErr result (λ e. e.kind ≡ ErrorKind.OutOfMemory) }
    {
        Any::copy_of(alloc, self.tag, self.contents.as_slice())
    }

    /// Copies the contents.
    fn copy_of(alloc: Global, tag: Tag, contents: &[u8]) -> Result<Any>
        requires { length contents.now ≤ limit }
        ensures ok { IfOk result (λ any. own_any_of any ≡ record { tag = tag.octet; contents = contents.now }) }
        ensures err { IfErr result (λ e. e.kind ≡ ErrorKind.OutOfMemory) }
    {
        Ok(Any {
            tag,
            contents: Vec::from_slice(alloc, contents)?,
        })
    }
}

impl Encoding for Any {
    ghost use Rattle.spki_core.specs.Words.{own_any_of};

    ghost Value = { TagAndContents };

    ghost value = { own_any_of };

    ghost Spelling = { TagAndContents };

    ghost means = { λ v. v };

    ghost written = { λ v. v };

    ghost valid = { standard.IsAny };

    ghost printed = { standard.any };

    ghost read_spelling = { any_front };

    ghost read_front = { any_front };

    ghost law = { any_law };

    ghost shortest = { one_spelling_shortest standard.IsAny standard.any };

    ghost some = { any_some };

    ghost reads_alike = { front_alike any_front };

    ghost starts = { starts_with_any standard.any };

    /// True, as any tag may stand in front.
    fn may_start_with(_tag: Tag) -> bool
        ensures { result ≡ true }
    {
        true
    }
}

impl<'a> Decode<&'a [u8], Global> for Any {
    ghost may_allocate = { λ b. (v : TagAndContents) × Prints standard.IsAny standard.any (λ v. v) v b };

    ghost asks_memory = { λ _ _. tt };

    fn read_one(memory: Global, bytes: &'a [u8]) -> Result<(Any, &'a [u8])> {
        let (any, rest) = AnyRef::read_one(NoMemory, bytes)?;
        let copy = Any::copy_of(memory, any.tag(), any.value())?;
        Ok((copy, rest))
    }

    fn decode<R: Reader<&'a [u8]>>(memory: Global, reader: &mut R) -> Result<Any> {
        let any = AnyRef::decode(NoMemory, reader)?;
        match Any::copy_of(memory, any.tag(), any.value()) {
            Ok(any) => Ok(any),
            Err(e) => Err(reader.error(e.kind())),
        }
    }
}

impl Encode for Any {
    ghost refused = { λ _. ⊥ };

    #[inline(always)]
    fn check(&self) -> Result<()> {
        Ok(())
    }

    #[inline(always)]
    fn prepend<W: Prepend>(&self, writer: &mut W) {
        self.as_any_ref().prepend(writer);
    }

    fn append<W: Writer>(&self, writer: &mut W) -> Result<()> {
        self.as_any_ref().append(writer)
    }
}

impl EqualByValue for Any {
    ghost use Rattle.spki_core.specs.Words.{any_decides};

    ghost decides = { λ a b. any_decides a.tag.octet b.tag.octet a.contents.items b.contents.items };
}

impl AnyValue for Any {
    ghost use Rattle.spki_core.specs.Words.{own_any_of, holds_itself, own_any_held, writes_itself};

    ghost any = { own_any_of };

    fn as_any_ref(&self) -> AnyRef<'_> {
        Any::as_any_ref(self)
    }

    ghost holds = { holds_itself own_any_of };

    ghost writes = { writes_itself own_any_of standard.IsAny standard.any };

    ghost held = { own_any_held };
}

impl AnyParams<Global> for Any {
    fn empty(memory: Global, tag: Tag) -> Any {
        Any {
            tag,
            contents: Vec::new(memory),
        }
    }
}

impl TryClone for Any {
    ghost never_out_of_memory = { λ _. ⊥ };

    fn try_clone(&self, alloc: Global) -> Result<Any> {
        self.try_clone(alloc)
    }
}
