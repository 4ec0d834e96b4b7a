//! A record with a part that is there or not, in front of another.
ghost use Rattle.std.specs.Prelude.{◌≡◌, ◌⊎◌, ◌∷◌, [], IfErr, length, bytes_eq};
ghost use Rattle.standard.specs.Statement as standard;
ghost use Rattle.der_core.specs.Words.{Answers, Spells, Unwritten, begins_with_any, boolean_tag, encode_error, itself_once, nothing_asked, ok_of, one_spelling_shortest, reading_alike, whole};
ghost use Rattle.examples.specs.Extension.{IsTrueOctet, critical_part, true_law, true_octets, true_read};

use der_core::{
    BooleanTag, Borrowed, Contents, DecodeValue, Encode, EncodeInParts, EncodeValue, Encoding,
    Error, ErrorKind, Memory, OctetStringRef, OneContents, OptionalThen, Prepend, Record, Result,
    RowOperation, SequenceTag, Tag, TaggedBy, Writer, read_borrowed, write_only,
};
use spki_core::ObjectIdentifier;

/// The BOOLEAN TRUE and no other (X.690 8.2, 11.1). It is what stands in the place of `BOOLEAN DEFAULT FALSE`, if
/// anything does: DER leaves the default out (11.5).
#[derive(Clone, Copy, Debug, Drop)]
pub struct True;

impl Contents for True {
    ghost Value = { Unit {0} };

    ghost value = { λ _. tt };

    ghost Spelling = { Unit {0} };

    ghost means = { λ s. s };

    ghost written = { λ v. v };

    ghost valid = { IsTrueOctet };

    ghost printed = { true_octets };

    ghost read_spelling = { true_read };

    ghost read = { true_read };

    ghost law = { true_law };

    ghost shortest = { one_spelling_shortest IsTrueOctet true_octets };

    ghost reads_alike = { reading_alike true_read };

    ghost begins = { begins_with_any };
}

impl TaggedBy for True {
    type Marker = BooleanTag;
}

/// Whether these are the contents octets of TRUE.
fn is_true(contents: &[u8]) -> bool
    ensures { result ≡ bytes_eq contents.now (255 ∷ []) }
{
    matches!(contents, [0xff])
}

/// TRUE, if these are its contents octets.
fn true_of(contents: &[u8]) -> Result<True>
    ensures { Answers (λ _. tt) result (true_read contents.now) }
{
    if is_true(contents) {
        Ok(True)
    } else {
        Err(Error::new(ErrorKind::Value { tag: Tag::BOOLEAN }))
    }
}

impl<'a, M: Memory> DecodeValue<&'a [u8], M> for True {
    ghost may_allocate = { λ _. ⊥ };

    ghost asks_memory = { nothing_asked };

    fn read_value(_memory: M, contents: &'a [u8]) -> Result<True> {
        true_of(contents)
    }
}

impl EncodeValue for True {
    ghost refused = { λ _. ⊥ };

    fn check_value(&self) -> Result<()> {
        Ok(())
    }

    fn prepend_value<W: Prepend>(&self, writer: &mut W) {
        writer.prepend(&[0xff]);
    }

    fn append_value<W: Writer>(&self, writer: &mut W) -> Result<()> {
        writer.write(&[0xff])
    }
}

impl OneContents for True {
    ghost once = { itself_once };
}

/// An extension of a certificate (RFC 5280 4.1).
///
/// ```text
/// Extension ::= SEQUENCE {
///     extnID     OBJECT IDENTIFIER,
///     critical   BOOLEAN DEFAULT FALSE,
///     extnValue  OCTET STRING
/// }
/// ```
#[derive(Clone, Copy, Debug, Drop)]
pub struct Extension<V> {
    /// What it is about.
    pub id: ObjectIdentifier,
    /// Whether who doesn't know it has to reject the certificate.
    pub critical: bool,
    /// What it says.
    pub value: V,
}

/// One that borrows its value.
pub type ExtensionRef<'a> = Extension<OctetStringRef<'a>>;

impl<V> TaggedBy for Extension<V> {
    type Marker = SequenceTag;
}

impl<V: Encoding> Record for Extension<V> {
    type Fields = (ObjectIdentifier, OptionalThen<True, (V, ())>);

    ghost fields = { λ it. (it.id, record { 0 = critical_part it.critical; 1 = (it.value, tt) }) };

    fn from_fields(row: (ObjectIdentifier, OptionalThen<True, (V, ())>)) -> Extension<V> {
        let (id, OptionalThen(critical, (value, ()))) = row;
        Extension {
            id,
            critical: critical.is_some(),
            value,
        }
    }
}

impl<V: Encode> EncodeInParts for Extension<V> {
    ghost refused = { λ tag. ⊥ ⊎ ((tag ≡ boolean_tag) ⊎ ⊥ ⊎ V.Encode.refused tag ⊎ ⊥) };

    #[inline(always)]
    fn with_row<O: RowOperation>(&self, operation: &mut O) -> O::Output {
        let value = (Borrowed(&self.value), ());
        if self.critical {
            operation.apply(&(Borrowed(&self.id), OptionalThen(Some(True), value)))
        } else {
            operation.apply(&(Borrowed(&self.id), OptionalThen(None::<True>, value)))
        }
    }
}

/// What a slice encodes, read without memory; or the error of its first fault.
pub fn read_extension<'a>(bytes: &'a [u8]) -> Result<ExtensionRef<'a>>
    ensures read { let T = ⟦<ExtensionRef<'a> as Encoding>⟧ in
        standard.Decodes (Spells T.valid T.printed T.means) bytes.now (ok_of T.value result) }
    ensures exact { let T = ⟦<ExtensionRef<'a> as Encoding>⟧ in
        Answers T.value result (whole T.read_front bytes.now) }
{
    read_borrowed(bytes)
}

/// Writes the only encoding to the front of a slice and returns its length. Err: exactly why; the slice is as it was.
pub fn write_extension<'a>(extension: &ExtensionRef<'a>, out: &mut [u8]) -> Result<usize>
    ensures written { let T = ⟦<ExtensionRef<'a> as Encoding>⟧ in let v = T.value extension.now in
        standard.Encodes (Spells T.valid T.printed T.means) v out.old out.new (ok_of (λ n. n) result) }
    ensures only { let T = ⟦<ExtensionRef<'a> as Encoding>⟧ in
        standard.AtMostOne (Spells T.valid T.printed T.means) }
    ensures err { let T = ⟦<ExtensionRef<'a> as Encoding>⟧ in let v = T.value extension.now in
        let encodings = Spells T.valid T.printed T.means in
        IfErr result (λ e. Unwritten (λ v. T.valid (T.written v)) encodings v (length out.old) (encode_error e.kind)) }
{
    write_only(extension, out)
}
