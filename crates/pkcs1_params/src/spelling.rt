//! Spellings of parameters: a mask says which of their defaults are written.
ghost use Rattle.std.specs.Prelude.{◌≡◌, ◌≤◌, ◌<◌, ⊤, List, length, IfErr, IfOk};
ghost use Rattle.std.specs.Borrow.{sem};
ghost use Rattle.der_core.specs.Words.{IsFront, begins_with_any, limit, ok_of, one_spelling_shortest, reading_alike};
ghost use Rattle.der_core.specs.declared.error.ErrorKind.{ErrorKind};
ghost use Rattle.spki_core.specs.Words.{AreSpelled, FieldRecord, are_defaults, record_fields, record_law, record_under, spelling_printed, spelling_read};
ghost use Rattle.spki_core.specs.FieldSpellings as spellings;
ghost use Rattle.pkcs1_params.specs.DefaultBits.{bits_of};
ghost use Rattle.pkcs1_params.specs.Meanings.{LeavesEncoded, Refuses};
ghost use Rattle.pkcs1_params.specs.Spellings.{EncodingOfFields, EncodingUnderMask, IsMask, MaskIsInRange};
ghost use Rattle.standard.specs.Statement.{Defaults, Encodes, Field, IsShortest};

use crate::contents::{append_contents, check_contents, prepend_contents};
use crate::error::Result;
use crate::fields::Fields;
use der_core::{
    Contents, Encode, EncodeValue, ErrorKind, Prepend, SequenceTag, TaggedBy, Writer, write_over,
};
use std::alloc::Global;

/// Borrowed parameters: a SEQUENCE of fields with defaults.
pub trait EncodeParams: Copy + Drop {
    /// The fields, borrowed.
    type Fields: Fields;

    /// What the parameters mean.
    ghost Params: { Type 0 };

    /// What a value means.
    ghost params: { Self → Params };

    /// Which parameters may be encoded.
    ghost Is: { Params → Type 0 };

    /// The fields of their SEQUENCE.
    ghost fields_of: { Params → List Field };

    /// The kinds of these fields, with their laws.
    ghost form: { FieldRecord Is fields_of };

    /// The fields, in order, of which there are at most 7.
    fn fields(self) -> Self::Fields
        ensures are { Self.Fields.written result ≡ record_fields form (params self) }
        ensures few { length (record_fields form (params self)) ≤ 7 };

    /// Does nothing: its contract says that the parameters may be encoded.
    fn lemma_is_valid(self)
        ensures { Is (params self) };

    /// Writes the shortest encoding, in which no default is written, to the front of a slice, and returns its length.
    /// The bytes behind it stay as they were. After an error all of the slice does. It is `Overflow` exactly if the
    /// encoding is longer than `Length::MAX`, else `NoRoom` exactly if it is longer than the slice, and never `Value`.
    #[inline(always)]
    final fn encode_params(self, out: &mut [u8]) -> Result<usize>
        ensures written { let Encoding = EncodingOfFields Self.Is Self.fields_of in
            Encodes Encoding (Self.params self) out.old out.new (ok_of (λ n. n) result) }
        ensures err { let Encoding = EncodingOfFields Self.Is Self.fields_of in
            IfErr result (Refuses (λ _. ⊤) Encoding (Self.params self) (length out.old)) }
    {
        self.encode_spelling_into(0, out)
    }

    /// Writes the only encoding under this mask to the front of a slice, and returns its length. The bytes behind it
    /// stay as they were. After an error all of the slice does.
    /// Bit j of the mask (bit 0 is the lowest) says whether the j-th of the fields that equal their defaults, in their
    /// order, is written. Mask 0 gives the shortest. Requires that it is below 2^k, of k such fields. The error is
    /// `Overflow` exactly if the encoding is longer than `Length::MAX`, else `NoRoom` exactly if it is longer than the
    /// slice.
    final fn encode_spelling_into(self, mask: u8, out: &mut [u8]) -> Result<usize>
        requires { IsMask (Self.fields_of (Self.params self)) mask }
        ensures written { let Encoding = EncodingUnderMask mask Self.Is Self.fields_of in
            Encodes Encoding (Self.params self) out.old out.new (ok_of (λ n. n) result) }
        ensures err { let Encoding = EncodingUnderMask mask Self.Is Self.fields_of in
            IfErr result (Refuses (λ _. ⊤) Encoding (Self.params self) (length out.old)) }
    {
        self.lemma_is_valid();
        let spelling = Spelling {
            params: self,
            non_defaults: non_defaults_in(self),
            mask,
        };
        Ok(spelling.encode_into(out)?)
    }

    /// Writes the only encoding under this mask, as `encode_spelling_into` does, and returns the front of the slice that
    /// holds it. A caller that needs in a proof what the slice holds calls `encode_spelling_into`.
    final fn encode_spelling<'b>(self, mask: u8, out: &'b mut [u8]) -> Result<&'b [u8]>
        requires { IsMask (Self.fields_of (Self.params self)) mask }
        ensures* leaves { let Encoding = EncodingUnderMask mask Self.Is Self.fields_of in
            sem 𝓛 (LeavesEncoded Encoding (Self.params self) out.entry result) }
        ensures written { let Encoding = EncodingUnderMask mask Self.Is Self.fields_of in
            IfOk result (λ encoding. IsShortest Encoding (Self.params self) encoding.now) }
        ensures room { IfOk result (λ encoding. length encoding.now ≤ length out.old) }
        ensures err { let Encoding = EncodingUnderMask mask Self.Is Self.fields_of in
            IfErr result (Refuses (λ _. ⊤) Encoding (Self.params self) (length out.old)) }
    {
        let written = self.encode_spelling_into(mask, out);
        front(out, written)
    }
}

/// The written front of a slice, or why nothing was written.
fn front<'b>(out: &'b [u8], written: Result<usize>) -> Result<&'b [u8]>
    requires { IfOk written (λ n. n ≤ length out.now) }
    ensures { IsFront out.now written result }
{
    match written {
        Ok(length) => Ok(&out[..length]),
        Err(error) => Err(error),
    }
}

/// Parameters with a mask that says which of their defaults are written.
#[derive(Drop)]
pub(crate) struct Spelling<T: EncodeParams> {
    pub(crate) params: T,
    pub(crate) non_defaults: u8,
    pub(crate) mask: u8,
    ghost range: { MaskIsInRange (T.fields_of (T.params params)) mask },
    ghost known: { non_defaults ≡ bits_of (are_defaults (record_fields T.form (T.params params))) },
}

impl<T: EncodeParams> Contents for Spelling<T> {
    ghost Value = { spellings.Spelling T.form.kinds };

    ghost value = { λ s. record_under T.form s.mask (T.params s.params) };

    ghost Spelling = { spellings.Spelling T.form.kinds };

    ghost means = { λ s. s };

    ghost written = { λ s. s };

    ghost valid = { AreSpelled T.form.kinds };

    ghost printed = { spelling_printed T.form.kinds };

    ghost read_spelling = { spelling_read T.form.kinds };

    ghost read = { spelling_read T.form.kinds };

    ghost law = { record_law T.form };

    ghost shortest = { one_spelling_shortest (AreSpelled T.form.kinds) (spelling_printed T.form.kinds) };

    ghost reads_alike = { reading_alike (spelling_read T.form.kinds) };

    ghost begins = { begins_with_any };
}

impl<T: EncodeParams> TaggedBy for Spelling<T> {
    type Marker = SequenceTag;
}

impl<T: EncodeParams> EncodeValue for Spelling<T> {
    ghost refused = { λ _. ⊥ };

    #[inline(always)]
    fn check_value(&self) -> der_core::Result<()> {
        check_contents(self.params, self.mask)
    }

    #[inline(always)]
    fn prepend_value<W: Prepend>(&self, writer: &mut W) {
        prepend_contents(self.params, self.non_defaults, self.mask, writer);
    }

    fn append_value<W: Writer>(&self, writer: &mut W) -> der_core::Result<()> {
        append_contents(self.params, self.non_defaults, self.mask, writer)
    }
}

/// Which fields differ from their defaults, as bits: bit j is that of field j.
#[inline(always)]
pub(crate) fn non_defaults_in<T: EncodeParams>(params: T) -> u8
    ensures { result ≡ bits_of (are_defaults (record_fields T.form (T.params params))) }
{
    params.fields().non_defaults()
}

/// How many fields equal their defaults.
#[inline(always)]
pub(crate) fn count_defaults<T: EncodeParams>(params: T) -> u8
    ensures count { Defaults (T.fields_of (T.params params)) result }
    ensures few { result < 8 }
{
    params.fields().count_defaults()
}

impl<T: EncodeParams> Spelling<T> {
    ghost use Rattle.std.specs.Prelude.{◌⊎◌};
    ghost use Rattle.standard.specs.Statement.{sequence};

    /// The length of the encoding: `Overflow` if it is too long.
    pub(crate) fn len(&self) -> der_core::Result<usize>
        ensures ok { let s = record_under T.form self.now.mask (T.params self.now.params) in
            let encoding = sequence (spelling_printed T.form.kinds s) in
            IfOk result (λ n. (n ≡ length encoding) × (n ≤ limit)) }
        ensures err { let s = record_under T.form self.now.mask (T.params self.now.params) in
            let encoding = sequence (spelling_printed T.form.kinds s) in
            IfErr result (λ e. (e.kind ≡ ErrorKind.Overflow) × (limit < length encoding)) }
    {
        self.params.lemma_is_valid();
        Ok(self.encoded_len()?.to_usize())
    }

    /// The encoding, in allocated memory.
    pub(crate) fn to_vec(&self, alloc: Global) -> der_core::Result<Vec<u8>>
        ensures ok { let s = record_under T.form self.now.mask (T.params self.now.params) in
            IfOk result (λ encoding. encoding.items ≡ sequence (spelling_printed T.form.kinds s)) }
        ensures err { let s = record_under T.form self.now.mask (T.params self.now.params) in
            let unfit : Type 0 = limit < length (sequence (spelling_printed T.form.kinds s)) in
            IfErr result (λ e. (e.kind ≡ ErrorKind.OutOfMemory) ⊎ ((e.kind ≡ ErrorKind.Overflow) × unfit)) }
    {
        self.params.lemma_is_valid();
        let length = self.len()?;
        let mut encoding = vec![in alloc; 0u8; length]?;
        write_over(self, encoding.as_mut_slice());
        Ok(encoding)
    }
}
