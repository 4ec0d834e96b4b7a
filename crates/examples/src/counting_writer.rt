//! A writer of one's own.
ghost use Rattle.std.specs.Prelude.{◌≡◌, ◌++◌, ◌+◌, ◌-◌, ◌^◌, IfErr, OnErr, OnOk, Some, length, min};
ghost use Rattle.std.specs.Int.Digits.{number_from_digits};
ghost use Rattle.der_core.specs.Words.{LacksRoom, Receives, ReceivesNothing, TakesRoom, bytes_of, integer_tag, number_contents, tlv};
ghost use Rattle.der_core.specs.Slices.{Keeps, room_of, written_of};
ghost use Rattle.der_core.specs.Laws.Numbers.{Keeps-itself, Keeps-through};

use der_core::{Encode, ErrorKind, Result, SliceWriter, UintRef, Writer};

/// A writer that counts the slices that it is given.
#[derive(Drop)]
pub struct CountingWriter<'b> {
    /// The writer that takes them.
    pub inner: SliceWriter<'b>,
    /// How many it was given.
    pub given: u64,
}

impl Writer for CountingWriter<'_> {
    ghost room = { λ w. Some (room_of w.inner) };

    ghost written = { λ w octets. written_of w.inner ≡ octets };

    ghost keeps = { λ v w. Keeps v.inner w.inner };

    fn write(&mut self, bytes: &[u8]) -> Result<()>
        ensures written { OnOk result (Receives bytes.now (λ octets. written_of self.old.inner ≡ octets)
            (λ octets. written_of self.new.inner ≡ octets)) }
        ensures room { OnOk result (TakesRoom (length bytes.now) (Some (room_of self.old.inner))
            (Some (room_of self.new.inner))) }
        ensures err { IfErr result (λ error. (error.kind ≡ ErrorKind.NoRoom)
            × LacksRoom (length bytes.now) (Some (room_of self.old.inner))) }
        ensures nothing { OnErr result (ReceivesNothing (λ octets. written_of self.old.inner ≡ octets)
            (λ octets. written_of self.new.inner ≡ octets)
            × (Some (room_of self.new.inner) ≡ Some (room_of self.old.inner))) }
        ensures kept { Keeps self.old.inner self.new.inner }
        ensures counted { self.new.given ≡ min (self.old.given + 1) (2 ^ 64 - 1) }
    {
        self.given = self.given.saturating_add(1);
        self.inner.write(bytes)
    }

    ghost keeps_itself = { λ w. Keeps-itself w.inner };

    ghost keeps_through = { λ u v w. Keeps-through u.inner v.inner w.inner };
}

/// Appends the encoding of a number. Of an error its contract says nothing.
pub fn write_number(number: &UintRef<'_>, writer: &mut CountingWriter<'_>) -> Result<()>
    ensures { let encoding = tlv integer_tag.octet (number_contents (number_from_digits 256 (bytes_of number.now))) in
        OnOk result (written_of writer.new.inner ≡ written_of writer.old.inner ++ encoding) }
{
    number.encode(writer)
}
