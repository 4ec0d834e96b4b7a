//! Unsigned numbers that own their bytes.
ghost use Rattle.std.specs.Prelude.{◌≡◌, ◌≤◌, ◌<◌, ◌⊎◌, ℕ, List, length, OnOk, IfOk, IfErr};
ghost use Rattle.std.specs.Int.Digits.{number_from_digits};
ghost use Rattle.der_core.specs.Length.{limit};
ghost use Rattle.der_core.specs.Integer.{HoldsNumber, IsCanonical, AreCanonicalOf};
ghost use Rattle.der_core.specs.IntegerReading.{WhyNoNumber, IsOutOfMemoryForNumber};
ghost use Rattle.der_core.specs.Laws.Printed.Alike.{reading_alike};
ghost use Rattle.der_core.specs.Laws.Printed.Leaves.{number_law, numbers_encode};
ghost use Rattle.der_core.specs.Laws.Printed.Shortest.{one_spelling_shortest};
ghost use Rattle.der_core.specs.Printed.{begins_with_any, number_contents, number_of};

use super::uint::{AsUintRef, UintEncoding, UintRef};
use crate::decode::DecodeValue;
use crate::encode::EncodeValue;
use crate::error::{ErrorKind, Result};
use crate::grammar::{Contents, EqualByValue, IntegerTag, TaggedBy};
use crate::length::Length;
use crate::memory::copy_of;
use crate::prepend::Prepend;
use crate::try_clone::TryClone;
use crate::writer::Writer;
use std::alloc::Global;

/// An unsigned number as big-endian bytes: no leading zeros, and one zero byte for 0. It owns them.
#[derive(Debug, PartialEq, Eq, Drop)]
pub struct Uint {
    bytes: Vec<u8>,
    ghost canonical: { HoldsNumber bytes.items },
    ghost bounded: { length bytes.items ≤ limit },
}

impl Uint {
    ghost use Rattle.der_core.specs.UintRefValue.{bytes_of};
    ghost use Rattle.der_core.specs.UintValue.{own_bytes_of};

    /// The number with these big-endian bytes, which may have leading zeros. `Length` of INTEGER exactly if there is
    /// no byte, `Overflow` exactly if more than `Length::MAX` bytes remain without leading zeros. `OutOfMemory` is
    /// returned only for bytes that are a number.
    pub fn new(alloc: Global, bytes: &[u8]) -> Result<Uint>
        ensures ok { IfOk result (λ number. AreCanonicalOf bytes.now (own_bytes_of number)) }
        ensures some { OnOk result (0 < length bytes.now) }
        ensures err { IfErr result (λ e. WhyNoNumber bytes.now e.kind ⊎ IsOutOfMemoryForNumber bytes.now e.kind) }
    {
        Uint::copy(alloc, UintRef::new(bytes)?)
    }

    /// The bytes, most significant first: at least one, at most `Length::MAX`, and no needless zero in front.
    #[tactic(auto, using(crate::specs::Laws::Integer::holds_canonical))]
    pub fn as_bytes(&self) -> &[u8]
        ensures number { result.now ≡ own_bytes_of self.now }
        ensures canonical { IsCanonical result.now }
        ensures bound { length result.now ≤ limit }
    {
        self.bytes.as_slice()
    }

    /// The same number, or `OutOfMemory`.
    pub fn try_clone(&self, alloc: Global) -> Result<Uint>
        ensures ok { IfOk result (λ copy. own_bytes_of copy ≡ own_bytes_of self.now) }
        ensures err { IfErr result (λ e. e.kind ≡ ErrorKind.OutOfMemory) }
    {
        Uint::copy(alloc, self.as_uint_ref())
    }

    /// Copies a number.
    fn copy(alloc: Global, number: UintRef<'_>) -> Result<Uint>
        ensures ok { IfOk result (λ copy. own_bytes_of copy ≡ bytes_of number.entry) }
        ensures err { IfErr result (λ e. e.kind ≡ ErrorKind.OutOfMemory) }
    {
        Ok(Uint {
            bytes: copy_of(alloc, number.as_bytes())?,
        })
    }
}

impl AsUintRef for Uint {
    ghost use Rattle.der_core.specs.UintValue.{own_bytes_of};

    ghost number = { own_bytes_of };

    fn as_uint_ref(&self) -> UintRef<'_> {
        UintRef::over(self.bytes.as_slice())
    }
}

impl UintEncoding for Uint {
    ghost use Rattle.der_core.specs.UintValue.{own_bytes_of};

    ghost encodes_number = { numbers_encode own_bytes_of };
}

impl TryClone for Uint {
    ghost never_out_of_memory = { λ _. ⊥ };

    fn try_clone(&self, alloc: Global) -> Result<Uint> {
        self.try_clone(alloc)
    }
}

impl Contents for Uint {
    ghost use Rattle.der_core.specs.UintValue.{own_bytes_of};

    ghost Value = { ℕ };

    ghost value = { λ u. number_from_digits 256 (own_bytes_of u) };

    ghost Spelling = { ℕ };

    ghost means = { λ n. n };

    ghost written = { λ n. n };

    ghost valid = { λ _. Unit {0} };

    ghost printed = { number_contents };

    ghost read_spelling = { number_of };

    ghost read = { number_of };

    ghost law = { number_law };

    ghost shortest = { one_spelling_shortest (λ _. Unit {0}) number_contents };

    ghost reads_alike = { reading_alike number_of };

    ghost begins = { begins_with_any };
}

impl TaggedBy for Uint {
    type Marker = IntegerTag;
}

impl EqualByValue for Uint {
    ghost use Rattle.der_core.specs.Laws.Printed.Leaves.{numbers_decide};

    ghost decides = { λ a b. numbers_decide a.bytes.items b.bytes.items a.canonical b.canonical };
}

impl<'a> DecodeValue<&'a [u8], Global> for Uint {
    ghost may_allocate = { λ c. (n : ℕ) × (c ≡ number_contents n) };

    ghost asks_memory = { λ _ _. tt };

    fn read_value(memory: Global, contents: &'a [u8]) -> Result<Uint> {
        let number = UintRef::read_value(memory, contents)?;
        Uint::copy(memory, number)
    }
}

impl EncodeValue for Uint {
    ghost refused = { λ _. ⊥ };

    #[inline(always)]
    fn check_value(&self) -> Result<()> {
        Ok(())
    }

    #[inline(always)]
    fn prepend_value<W: Prepend>(&self, writer: &mut W) {
        self.as_uint_ref().prepend_value(writer);
    }

    fn append_value<W: Writer>(&self, writer: &mut W) -> Result<()> {
        self.as_uint_ref().append_value(writer)
    }
}
