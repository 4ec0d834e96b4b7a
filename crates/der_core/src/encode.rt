//! Writing of values.
ghost use Rattle.std.specs.Prelude.{◌≡◌, ◌≤◌, ◌++◌, length, drop, OnOk, OnErr, IfOk, IfErr};
ghost use Rattle.der_core.specs.Words.{limit, RefusedAs, Checks, WhyNotAppended, WhyNotCounted, WhyNotWritten, Prints, Spells, IsFront, LeavesRest, Counts, Appends, encode_error};
ghost use Rattle.standard.specs.Statement.{IsShortest};
ghost use Rattle.std.specs.Borrow.{sem};
ghost use Rattle.der_core.specs.declared.tag.Tag.{Tag as TheTag};

use crate::back_writer::BackWriter;
use crate::counter::Counter;
use crate::error::{Error, ErrorKind, Result};
use crate::grammar::{Contents, Encoding, FixedTag};
use crate::header::Header;
use crate::length::Length;
use crate::prepend::Prepend;
use crate::writer::Writer;

/// A type whose values are written as contents octets.
pub trait EncodeValue: Contents {
    /// The tags that an error `Value` may have. A type that doesn't say it leaves them open.
    ghost refused: { TheTag → Type 0 } = { λ _. Unit {0} };

    /// Whether the value has contents: `Value` exactly if it has none.
    fn check_value(&self) -> Result<()>
        ensures checks { Checks (Self.valid (Self.written (Self.value self.now))) result }
        ensures tag { RefusedAs refused result };

    /// Writes the contents in front of what was received, or counts them. There have to be some, and room for them, and
    /// their length has to fit.
    fn prepend_value<W: Prepend>(&self, writer: &mut W)
        requires has { Self.valid (Self.written (Self.value self.now)) }
        requires room { let n = length (Self.printed (Self.written (Self.value self.now))) in
            W.has_room writer.old n × W.length_fits n }
        ensures { W.prepended (Self.printed (Self.written (Self.value self.now))) writer.old writer.new };

    /// Appends the contents. There have to be some, within `Length::MAX`. The only error is `NoRoom`, exactly if the
    /// writer has too little room, after a beginning of them.
    fn append_value<W: Writer>(&self, writer: &mut W) -> Result<()>
        requires has { Self.valid (Self.written (Self.value self.now)) }
        requires fits { length (Self.printed (Self.written (Self.value self.now))) ≤ limit }
        ensures appends { let s = Self.written (Self.value self.now) in
            Appends (Self.valid s) (Self.printed s) W.room W.written writer.old writer.new result }
        ensures kept { W.keeps writer.old writer.new };

    /// The length of the contents that are written. `Value` exactly if the value has none, else `Overflow` exactly if
    /// they are longer than `Length::MAX`.
    #[inline(always)]
    fn value_len(&self) -> Result<Length>
        ensures counts { let s = Self.written (Self.value self.now) in Counts (Self.valid s) (Self.printed s) result }
        ensures tag { RefusedAs refused result }
    {
        self.check_value()?;
        let mut counter = Counter::new();
        self.prepend_value(&mut counter);
        counter.length()
    }

    /// Appends the contents: `Value` and `Overflow`, as of `value_len`, before any octet, `NoRoom` after a beginning.
    fn encode_value<W: Writer>(&self, writer: &mut W) -> Result<()>
        ensures appends { let s = Self.written (Self.value self.now) in
            Appends (Self.valid s) (Self.printed s) W.room W.written writer.old writer.new result }
        ensures tag { RefusedAs refused result }
        ensures kept { W.keeps writer.old writer.new }
    {
        self.value_len()?;
        self.append_value(writer)
    }
}

/// A type whose values are written as encodings. Its calls return these errors exactly in these cases:
/// - `Value`: the value has no encoding, of any length. The tag is one that `refused` names.
/// - `Overflow`: it has encodings, but none within `Length::MAX`.
/// - `NoRoom`: its shortest encoding is longer than the slice, or than the room of the writer.
pub trait Encode: Encoding {
    /// The tags that an error `Value` may have. A type that doesn't say it leaves them open.
    ghost refused: { TheTag → Type 0 } = { λ _. Unit {0} };

    /// Whether the value has an encoding: `Value` exactly if it has none.
    fn check(&self) -> Result<()>
        ensures checks { Checks (Self.valid (Self.written (Self.value self.now))) result }
        ensures tag { RefusedAs refused result };

    /// Writes the shortest encoding in front of what was received, or counts it. There has to be one, and room for it, and
    /// its length has to fit.
    fn prepend<W: Prepend>(&self, writer: &mut W)
        requires has { Self.valid (Self.written (Self.value self.now)) }
        requires room { let n = length (Self.printed (Self.written (Self.value self.now))) in
            W.has_room writer.old n × W.length_fits n }
        ensures { W.prepended (Self.printed (Self.written (Self.value self.now))) writer.old writer.new };

    /// Appends the shortest encoding. There has to be one within `Length::MAX`. The only error is `NoRoom`, exactly if
    /// the writer has too little room, after a beginning of it.
    fn append<W: Writer>(&self, writer: &mut W) -> Result<()>
        requires has { Self.valid (Self.written (Self.value self.now)) }
        requires fits { length (Self.printed (Self.written (Self.value self.now))) ≤ limit }
        ensures appends { let s = Self.written (Self.value self.now) in
            Appends (Self.valid s) (Self.printed s) W.room W.written writer.old writer.new result }
        ensures kept { W.keeps writer.old writer.new };

    /// The length of the shortest encoding; `Value` and `Overflow` exactly if they say so.
    #[inline(always)]
    final fn encoded_len(&self) -> Result<Length>
    where
        Self: Sized,
        ensures counted { let s = Self.written (Self.value self.now) in Counts (Self.valid s) (Self.printed s) result }
        ensures err { let v = Self.value self.now in let encodings = Prints Self.valid Self.printed Self.means in
            IfErr result (λ e. WhyNotCounted (Self.valid (Self.written v)) encodings v (encode_error e.kind)) }
        ensures tag { RefusedAs Self.Encode.refused result }
    {
        counted_len(self)
    }

    /// Appends the shortest encoding. `Value` and `Overflow` come before any octet is written, `NoRoom` after a
    /// beginning of them. A writer without a limit gives no `NoRoom`.
    final fn encode<W: Writer>(&self, writer: &mut W) -> Result<()>
    where
        Self: Sized,
        ensures appends { let s = Self.written (Self.value self.now) in
            Appends (Self.valid s) (Self.printed s) W.room W.written writer.old writer.new result }
        ensures err { let v = Self.value self.now in let encodings = Prints Self.valid Self.printed Self.means in
            IfErr result (λ e. WhyNotAppended (Self.valid (Self.written v)) encodings v (W.room writer.old)
            (encode_error e.kind)) }
        ensures tag { RefusedAs Self.Encode.refused result }
        ensures kept { W.keeps writer.old writer.new }
    {
        append_counted(self, writer)
    }

    /// Writes the shortest encoding of the value to the front of a slice. Ok(n): the first n bytes are the encoding,
    /// and those behind them are as they were. Err: the slice is as it was, and the error says exactly why.
    final fn encode_into(&self, out: &mut [u8]) -> Result<usize>
    where
        Self: Sized,
        ensures ok { let encoding = Self.printed (Self.written (Self.value self.now)) in
            IfOk result (λ n. (n ≡ length encoding) × (out.new ≡ encoding ++ drop n out.old)) }
        ensures shortest { let v = Self.value self.now in let encodings = Spells Self.valid Self.printed Self.means in
            OnOk result (IsShortest encodings v (Self.printed (Self.written v))) }
        ensures err { let v = Self.value self.now in let encodings = Prints Self.valid Self.printed Self.means in
            IfErr result (λ e. WhyNotWritten (Self.valid (Self.written v)) encodings v (length out.old)
            (encode_error e.kind)) }
        ensures tag { RefusedAs Self.Encode.refused result }
        ensures unchanged { OnErr result (out.new ≡ out.old) }
    {
        let length = self.encoded_len()?.to_usize();
        if out.len() < length {
            return Err(Error::new(ErrorKind::NoRoom));
        }
        let (region, _) = out.split_at_mut(length);
        let mut writer = BackWriter::new(region);
        self.prepend(&mut writer);
        Ok(length)
    }

    /// Writes the shortest encoding of the value to the front of a slice. Ok: that part, which is no longer than the
    /// slice. The bytes behind it are as they were. Err: all of the slice is as it was, and the error says exactly
    /// why. A caller that needs in a proof what the slice holds calls `encode_into`.
    final fn encode_to_slice<'b>(&self, out: &'b mut [u8]) -> Result<&'b [u8]>
    where
        Self: Sized,
        ensures* leaves { sem 𝓛 (LeavesRest out.entry (Self.printed (Self.written (Self.value self.now))) result) }
        ensures ok { IfOk result (λ s. s.now ≡ Self.printed (Self.written (Self.value self.now))) }
        ensures shortest { let encodings = Spells Self.valid Self.printed Self.means in
            IfOk result (λ s. IsShortest encodings (Self.value self.now) s.now) }
        ensures room { IfOk result (λ s. length s.now ≤ length out.old) }
        ensures err { let v = Self.value self.now in let encodings = Prints Self.valid Self.printed Self.means in
            IfErr result (λ e. WhyNotWritten (Self.valid (Self.written v)) encodings v (length out.old)
            (encode_error e.kind)) }
        ensures tag { RefusedAs Self.Encode.refused result }
    {
        let written = self.encode_into(out);
        front(out, written)
    }
}

/// The written front of a slice, or why nothing was written.
fn front<'b>(out: &'b [u8], written: Result<usize>) -> Result<&'b [u8]>
    requires { IfOk written (λ n. n ≤ length out.now) }
    ensures { IsFront out.now written result }
{
    match written {
        Ok(length) => Ok(&out[..length]),
        Err(error) => Err(error),
    }
}

/// The length of the shortest encoding.
#[inline(always)]
fn counted_len<T: Encode>(value: &T) -> Result<Length>
    ensures counted { let s = T.written (T.value value.now) in Counts (T.valid s) (T.printed s) result }
    ensures tag { RefusedAs T.Encode.refused result }
{
    value.check()?;
    let mut counter = Counter::new();
    value.prepend(&mut counter);
    counter.length()
}

/// Appends the shortest encoding, where it is within `Length::MAX`.
fn append_counted<T: Encode, W: Writer>(value: &T, writer: &mut W) -> Result<()>
    ensures appends { let s = T.written (T.value value.now) in
        Appends (T.valid s) (T.printed s) W.room W.written writer.old writer.new result }
    ensures tag { RefusedAs T.Encode.refused result }
    ensures kept { W.keeps writer.old writer.new }
{
    counted_len(value)?;
    value.append(writer)
}

impl<T: EncodeValue + FixedTag> Encode for T {
    ghost refused = { T.EncodeValue.refused };

    #[inline(always)]
    fn check(&self) -> Result<()> {
        self.check_value()
    }

    #[inline(always)]
    fn prepend<W: Prepend>(&self, writer: &mut W) {
        let before = writer.filled_len();
        self.prepend_value(writer);
        writer.prepend_header(T::TAG, before);
    }

    fn append<W: Writer>(&self, writer: &mut W) -> Result<()> {
        let mut counter = Counter::new();
        self.prepend_value(&mut counter);
        let header = Header {
            tag: T::TAG,
            length: Length::of(counter.filled_len() as usize),
        };
        writer.write(&header.to_bytes())?;
        self.append_value(writer)
    }
}
