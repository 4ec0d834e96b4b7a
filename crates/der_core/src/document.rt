//! Documents: whole SEQUENCEs, whose contents aren't looked at.
ghost use Rattle.std.specs.Prelude.{◌≡◌, ◌≢◌, ◌≤◌, ℕ, List, [], length, refl, IfOk, IfErr, OnOk};
ghost use Rattle.std.specs.Path.{path_bytes};
ghost use Rattle.der_core.specs.Transfer.{ReadsDocument, WritesAll};
ghost use Rattle.der_core.specs.Files.{FileFault, FileGives, FileRefuses, FileTakes, created, opened, with_call};
ghost use Rattle.der_core.specs.Document.{IsDocument};
ghost use Rattle.der_core.specs.Laws.Length.{IsDocument-prop};
ghost use Rattle.der_core.specs.Length.{limit};
ghost use Rattle.der_core.specs.Laws.Printed.Leaves.{any_alike, any_shortest, octets_law};
ghost use Rattle.der_core.specs.Printed.{Prints, begins_with_any};
ghost use Rattle.der_core.specs.Reading.{Returns, NoValueOrMemory};
ghost use Rattle.der_core.specs.Readings.{any_contents, octets_of_all, read_document};
ghost use Rattle.der_core.specs.Errors.{IsFile};
ghost use Rattle.der_core.specs.Encodings.{AreBytes};
ghost use Rattle.der_core.specs.Tlv.{tlv};
ghost use Rattle.der_core.specs.Writing.{RefusedAs};
ghost use Rattle.der_core.specs.Laws.Encodings.{nothing_asked};

use crate::back_writer::BackWriter;
use crate::decode::{Decode, DecodeValue};
use crate::encode::{Encode, EncodeValue};
use crate::error::{Error, ErrorKind, Result};
use crate::file_system::FileSystem;
use crate::grammar::{Contents, FixedTag, Sequence, SequenceTag, TaggedBy};
use crate::length::Length;
use crate::memory::{NoMemory, copy_of};
use crate::source_sink::{Close, Sink, Source};
use crate::transfer::{read_all, write_all};
use std::alloc::Global;
use std::fmt;
use std::marker::PhantomData;
use std::path::Path;

/// Some SEQUENCE, whose contents aren't kept.
#[derive(Drop)]
struct AnySequence;

impl Contents for AnySequence {
    ghost Value = { Unit {0} };

    ghost value = { λ _. tt };

    ghost Spelling = { List ℕ };

    ghost means = { λ _. tt };

    ghost written = { λ _. [] };

    ghost valid = { AreBytes };

    ghost printed = { λ o. o };

    ghost read_spelling = { octets_of_all };

    ghost read = { any_contents };

    ghost law = { octets_law };

    ghost shortest = { any_shortest };

    ghost reads_alike = { any_alike };

    ghost begins = { begins_with_any };
}

impl TaggedBy for AnySequence {
    type Marker = SequenceTag;
}

impl<'a> DecodeValue<&'a [u8], NoMemory> for AnySequence {
    ghost may_allocate = { λ _. ⊥ };

    ghost asks_memory = { nothing_asked };

    fn read_value(_memory: NoMemory, _contents: &'a [u8]) -> Result<AnySequence> {
        Ok(AnySequence)
    }
}

/// Writes the encoding of a message, which has to have one within `Length::MAX`, over a slice of just its length.
pub fn write_over<T: EncodeValue + FixedTag>(message: &T, out: &mut [u8])
    requires has { T.valid (T.written (T.value message.now)) }
    requires fits { length (tlv T.TAG.octet (T.printed (T.written (T.value message.now)))) ≤ limit }
    requires room { length out.old ≡ length (tlv T.TAG.octet (T.printed (T.written (T.value message.now)))) }
    ensures { out.new ≡ tlv T.TAG.octet (T.printed (T.written (T.value message.now))) }
{
    let mut writer = BackWriter::new(out);
    message.prepend(&mut writer);
}

/// Does nothing: its contract says that bytes are octets.
fn lemma_are_bytes(bytes: &[u8])
    ensures { AreBytes bytes.now }
{}

/// Marks documents that may be printed and compared.
#[derive(PartialEq, Eq, Drop)]
pub struct Open;

/// Marks secret documents: they can't be compared, and their `Debug` shows no byte.
#[derive(Drop)]
pub struct Secret;

/// One whole SEQUENCE, of at most `Length::MAX` bytes, whatever its contents are. `S` says whether it is open or
/// secret: what is said of a `Document` is said of a `SecretDocument` too.
#[derive(Drop, PartialEq, Eq)]
pub struct DocumentOf<S> {
    bytes: Vec<u8>,
    secrecy: PhantomData<S>,
    ghost whole: { IsDocument bytes.items } by { IsDocument-prop bytes.items },
}

/// One whole SEQUENCE, of at most `Length::MAX` bytes.
pub type Document = DocumentOf<Open>;

/// One whole SEQUENCE, of at most `Length::MAX` bytes, that is secret: `Debug` shows none of its bytes, it can't be
/// compared, and it isn't accepted where a `Document` is expected.
pub type SecretDocument = DocumentOf<Secret>;

impl<S: Drop> DocumentOf<S> {
    ghost use Rattle.der_core.specs.DocumentValue.{HoldsMessage, encoding_of};

    /// Copies the bytes. Ok only if they are a document: then it holds these bytes. Err: their first fault, or
    /// `OutOfMemory`, which is returned only if they are a document.
    pub fn from_der(alloc: Global, bytes: &[u8]) -> Result<DocumentOf<S>>
        ensures ok { IfOk result (λ document. IsDocument bytes.now × (encoding_of document ≡ bytes.now)) }
        ensures err { IfErr result (λ e. NoValueOrMemory e.kind (IsDocument bytes.now) (IsDocument bytes.now → ⊥)) }
        ensures exact { Returns (λ _. tt) (read_document bytes.now) (IsDocument bytes.now) result }
    {
        AnySequence::from_der(NoMemory, bytes)?;
        Ok(DocumentOf {
            bytes: copy_of(alloc, bytes)?,
            secrecy: PhantomData,
        })
    }

    /// Encodes a message. Ok: the document holds its shortest encoding. `Value` exactly if the message has no
    /// encoding, with a tag that the type refuses. `Overflow` exactly if it has encodings, but none within
    /// `Length::MAX`. `OutOfMemory` is returned only if one is within that.
    pub fn encode_msg<'a, T: EncodeValue + Sequence<'a>>(
        alloc: Global,
        message: &T,
    ) -> Result<DocumentOf<S>>
        ensures holds { HoldsMessage encoding_of result (T.valid (T.written (T.value message.now)))
            (tlv T.TAG.octet (T.printed (T.written (T.value message.now))))
            (Prints T.valid (λ s. tlv T.TAG.octet (T.printed s)) T.means) (T.value message.now) }
        ensures tag { RefusedAs T.EncodeValue.refused result }
    {
        let length = message.encoded_len()?.to_usize();
        let mut bytes = vec![in alloc; 0u8; length]?;
        write_over(message, bytes.as_mut_slice());
        lemma_are_bytes(bytes.as_slice());
        Ok(DocumentOf {
            bytes,
            secrecy: PhantomData,
        })
    }

    /// The whole encoding: the bytes of one SEQUENCE, at most `Length::MAX`.
    pub fn as_bytes(&self) -> &[u8]
        ensures encoding { result.now ≡ encoding_of self.now }
        ensures whole { IsDocument result.now }
    {
        self.bytes.as_slice()
    }

    /// How many bytes the encoding has.
    pub fn len(&self) -> Length
        ensures { result ≡ length (encoding_of self.now) }
    {
        Length::of(self.bytes.len())
    }

    /// Reads a source to its end. Ok: the document is all that the source gave, and no call of the source failed. Err:
    /// - `File`: one call of the source failed. After each other error none did.
    /// - `OutOfMemory`: at least one byte came, and no more than `Length::MAX`.
    /// - `Overflow`: more bytes came than `Length::MAX`, by at most 65536.
    /// - Otherwise the first fault of all that the source gave, which may be `Overflow` too.
    ///
    /// It returns even if the source never ends. What was read before an error is lost.
    pub fn read_from<R: Source>(alloc: Global, source: &mut R) -> Result<DocumentOf<S>>
        ensures { ReadsDocument encoding_of result (R.remaining source.old) (R.remaining source.new)
            (R.failures source.old) (R.failures source.new) }
    {
        let bytes = read_all(alloc, source, Length::MAX)?;
        AnySequence::from_der(NoMemory, bytes.as_slice())?;
        Ok(DocumentOf {
            bytes,
            secrecy: PhantomData,
        })
    }

    /// Writes all bytes to the sink, in order. Ok: it took them all, is flushed, and no call of it failed. Err: it is
    /// `File`, one call of the sink failed, and the sink took a beginning of the bytes. Nothing is allocated.
    pub fn write_to<W: Sink>(&self, sink: &mut W) -> Result<()>
        ensures written { WritesAll (encoding_of self.now) result (W.contents sink.old) (W.contents sink.new)
            (W.failures sink.old) (W.failures sink.new) }
        ensures flushed { OnOk result (W.is_flushed sink.new) }
    {
        write_all(self.bytes.as_slice(), sink)
    }

    /// Reads the document in a file. Ok: it is all that the file opened at this path gave, from its opening to its
    /// end. Err: `File` if the file can't be opened, else as of `read_from`. It is never `NoRoom`.
    #[tactic(auto, using(crate::specs::Laws::WholeReadings::document_reads))]
    pub fn read_der_file<F: FileSystem>(
        files: &mut F,
        alloc: Global,
        path: Path<'_>,
    ) -> Result<DocumentOf<S>>
        ensures ok { let opens = F.opens (path_bytes path.entry) in
            IfOk result (λ document. FileGives opens F.Opened.remaining (encoding_of document)) }
        ensures room { IfErr result (λ e. e.kind ≢ ErrorKind.NoRoom) }
        ensures exact { let opens = F.opens (path_bytes path.entry) in
            IfErr result (λ e. FileFault opens F.Opened.remaining F.Opened.failures e.kind) }
        ensures called { F.calls files.new ≡ with_call (F.calls files.old) (opened (path_bytes path.entry)) }
    {
        let mut source = files.open(path)?;
        DocumentOf::read_from(alloc, &mut source)
    }

    /// Creates the file, or truncates an old one, writes the document, and closes the file. Ok: the file took exactly
    /// the document, from its creation until it was closed, and was flushed. Err: it is `File`. Either the file can't
    /// be created, or one call of it failed, and it was closed when it had taken a beginning of the bytes.
    pub fn write_der_file<F: FileSystem>(&self, files: &mut F, path: Path<'_>) -> Result<()>
        ensures ok { OnOk result (FileTakes (F.creates (path_bytes path.entry)) F.Created.is_closed
            F.Created.contents F.Created.is_flushed (encoding_of self.now)) }
        ensures err { let refuses = FileRefuses (F.creates (path_bytes path.entry)) F.Created.is_closed in
            IfErr result (λ e. IsFile e × refuses F.Created.contents F.Created.failures (encoding_of self.now)) }
        ensures called { F.calls files.new ≡ with_call (F.calls files.old) (created (path_bytes path.entry)) }
    {
        let mut sink = files.create(path)?;
        let written = self.write_to(&mut sink);
        sink.close();
        written
    }
}

impl fmt::Debug for DocumentOf<Open> {
    /// Prints the bytes.
    fn fmt<W: fmt::Write>(&self, f: &mut fmt::Formatter<W>) -> fmt::Result {
        f.debug_struct("Document")
            .field("bytes", &self.bytes)
            .finish()
    }
}

impl fmt::Debug for DocumentOf<Secret> {
    /// Prints the name of the type, and no byte.
    fn fmt<W: fmt::Write>(&self, f: &mut fmt::Formatter<W>) -> fmt::Result {
        f.debug_struct("SecretDocument").finish_non_exhaustive()
    }
}
