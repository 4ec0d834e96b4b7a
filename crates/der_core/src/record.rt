//! Records of parts, mostly SEQUENCEs: a type that names its parts is read and written with no proof of its own.
ghost use Rattle.std.specs.Prelude.{◌≡◌, ◌≤◌, Err, List, Ok, ℕ, length};
ghost use Rattle.der_core.specs.declared.error.ErrorKind.{ErrorKind};
ghost use Rattle.der_core.specs.declared.tag.Tag.{Tag as TheTag};
ghost use Rattle.der_core.specs.Words.{Appends, AreSpelledOnce, Checks, RefusedAs, limit};

use crate::decode::DecodeValue;
use crate::encode::EncodeValue;
use crate::error::Result;
use crate::grammar::Contents;
use crate::memory::Memory;
use crate::parts::DecodeParts;
use crate::prepend::Prepend;
use crate::tag::Tag;
use crate::writer::Writer;

/// A type whose contents are a row of parts.
pub trait InParts: Contents + Sized {
    /// The row.
    type Parts: Contents;

    /// The value with these parts.
    fn from_parts(parts: Self::Parts) -> Self
        ensures { (c : List ℕ) → Self.Parts.read c ≡ Ok (Self.Parts.value parts)
            → Self.read c ≡ Ok (Self.value result) };

    /// A fault of the row is the value's fault.
    ghost errs: { (k : ErrorKind) (c : List ℕ) → Self.Parts.read c ≡ Err k → Self.read c ≡ Err k };

    /// If each row is spelled in one way, so is each value.
    ghost once: { AreSpelledOnce Self.Parts.means → AreSpelledOnce Self.means };
}

impl<'a, M: Memory, T: InParts + Drop> DecodeValue<&'a [u8], M> for T
where
    T::Parts: DecodeParts<&'a [u8], M>,
{
    ghost may_allocate = { T.Parts.DecodeParts.may_allocate };

    ghost asks_memory = { T.Parts.DecodeParts.asks_memory };

    #[inline(always)]
    fn read_value(memory: M, contents: &'a [u8]) -> Result<T> {
        let parts = T::Parts::read_parts(memory, contents)?;
        Ok(T::from_parts(parts))
    }
}

/// What is done to a row of parts that are written.
pub trait RowOperation: Sized {
    /// What it returns.
    type Output;

    /// What it needs of contents: whether there are some, and which.
    ghost needs: { Self → Type 0 → List ℕ → Type 0 };

    /// What it returns of contents, and what it becomes. The tags are those of an error `Value`.
    ghost gives: { Self → Self → Type 0 → List ℕ → (TheTag → Type 0) → Self.Output → Type 0 };

    /// Does it.
    fn apply<R: EncodeValue>(&mut self, row: &R) -> Self::Output
        requires { let s = R.written (R.value row.now) in needs self.old (R.valid s) (R.printed s) }
        ensures { let s = R.written (R.value row.now) in
            gives self.old self.new (R.valid s) (R.printed s) R.EncodeValue.refused result };
}

/// Finds out whether the row has contents.
#[derive(Drop)]
struct CheckRow;

impl RowOperation for CheckRow {
    type Output = Result<()>;

    ghost needs = { λ _ _ _. Unit {0} };

    ghost gives = { λ _ _ valid printed refused r. Checks valid r × RefusedAs refused r };

    #[inline(always)]
    fn apply<R: EncodeValue>(&mut self, row: &R) -> Result<()> {
        row.check_value()
    }
}

/// Writes the row in front of what was received, or counts it.
#[derive(Drop)]
struct PrependRow<'w, W> {
    writer: &'w mut W,
}

impl<'w, W: Prepend> RowOperation for PrependRow<'w, W> {
    type Output = ();

    ghost needs = { λ op valid printed.
        valid × W.has_room op.writer.now (length printed) × W.length_fits (length printed) };

    ghost gives = { λ old new valid printed refused r.
        (new.writer.ghost_name ≡ old.writer.ghost_name) × W.prepended printed old.writer.now new.writer.now };

    #[inline(always)]
    fn apply<R: EncodeValue>(&mut self, row: &R) {
        row.prepend_value(self.writer);
    }
}

/// Appends the row.
#[derive(Drop)]
struct AppendRow<'w, W> {
    writer: &'w mut W,
}

impl<'w, W: Writer> RowOperation for AppendRow<'w, W> {
    type Output = Result<()>;

    ghost needs = { λ op valid printed. valid × (length printed ≤ limit) };

    ghost gives = { λ old new valid printed refused r.
        (new.writer.ghost_name ≡ old.writer.ghost_name) × W.keeps old.writer.now new.writer.now
        × Appends valid printed W.room W.written old.writer.now new.writer.now r };

    #[inline(always)]
    fn apply<R: EncodeValue>(&mut self, row: &R) -> Result<()> {
        row.append_value(self.writer)
    }
}

/// A type whose contents are written as a row of parts.
pub trait EncodeInParts: InParts {
    /// The tags that an error `Value` may have: those of the row.
    ghost refused: { TheTag → Type 0 };

    /// Does this to the row of what is written, whose parts are borrowed. It has at most seven parts: of eight the last
    /// four are one, whose type is written in parts too.
    fn with_row<O: RowOperation>(&self, operation: &mut O) -> O::Output
        requires { let s = Self.written (Self.value self.now) in
            O.needs operation.old (Self.valid s) (Self.printed s) }
        ensures { let s = Self.written (Self.value self.now) in
            O.gives operation.old operation.new (Self.valid s) (Self.printed s) refused result };
}

impl<T: EncodeInParts> EncodeValue for T {
    ghost refused = { T.EncodeInParts.refused };

    #[inline(always)]
    fn check_value(&self) -> Result<()> {
        self.with_row(&mut CheckRow)
    }

    #[inline(always)]
    fn prepend_value<W: Prepend>(&self, writer: &mut W) {
        let mut operation = PrependRow { writer };
        self.with_row(&mut operation);
    }

    fn append_value<W: Writer>(&self, writer: &mut W) -> Result<()> {
        let mut operation = AppendRow { writer };
        self.with_row(&mut operation)
    }
}

/// A type that means its parts: their row is all that there is to say of it, and the tag around them.
pub trait Record: Sized {
    /// The row.
    type Fields: Contents;

    /// Its fields as a row.
    ghost fields: { Self → Self.Fields };

    /// The record of these fields.
    fn from_fields(row: Self::Fields) -> Self
        ensures { fields result ≡ row };
}

impl<T: Record> Contents for T {
    ghost Value = { T.Fields.Value };

    ghost value = { λ x. T.Fields.value (T.fields x) };

    ghost Spelling = { T.Fields.Spelling };

    ghost means = { T.Fields.means };

    ghost written = { T.Fields.written };

    ghost valid = { T.Fields.valid };

    ghost printed = { T.Fields.printed };

    ghost read_spelling = { T.Fields.read_spelling };

    ghost read = { T.Fields.read };

    ghost law = { T.Fields.law };

    ghost shortest = { T.Fields.shortest };

    ghost reads_alike = { T.Fields.reads_alike };

    ghost begins = { T.Fields.begins };
}

impl<T: Record> InParts for T {
    type Parts = T::Fields;

    #[inline(always)]
    fn from_parts(parts: T::Fields) -> T {
        T::from_fields(parts)
    }

    ghost errs = { λ k c e. e };

    ghost once = { λ once. once };
}
