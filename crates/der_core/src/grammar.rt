//! What a type's values and their encodings are, stated by a printer: which spellings are valid, what their octets are,
//! and which functions read them. It is one for reading and writing, for borrowed and owned types.
//!
//! The author of a type writes `Contents` (ghosts alone), `TaggedBy` (the tag), and then `DecodeValue` or `EncodeValue`
//! or both.
ghost use Rattle.std.specs.Prelude.{◌≡◌, ◌<◌, ℕ, List, length, Decides, refl};
ghost use Rattle.standard.specs.Statement as standard;
ghost use Rattle.der_core.specs.Words.{Begins, FrontReading, Reading, ReadsAlike, ReadsFrontAlike, ReadsFrontPrinted, ReadsPrinted, Starts, WritesShortest, begins_with_any, integer_tag, sequence_tag, tagged, tagged_alike, tagged_law, tagged_shortest, tagged_some, tagged_starts};
ghost use Rattle.der_core.specs.declared.tag.Tag.{Tag};

use crate::tag::Tag;

/// A type whose values have contents octets: those that are printed of their spellings.
pub trait Contents {
    /// What values of the type mean: the same for borrowed and owned types.
    ghost Value: { Type 0 };

    /// What a value means.
    ghost value: { Self → Value };

    /// What stands in the bytes: a value, or one of its spellings.
    ghost Spelling: { Type 0 };

    /// What a spelling means.
    ghost means: { Spelling → Value };

    /// The spelling that is written.
    ghost written: { Value → Spelling };

    /// Which spellings have contents.
    ghost valid: { Spelling → Type 0 };

    /// Their contents.
    ghost printed: { Spelling → List ℕ };

    /// The spelling with these contents, or the kind of error of their first fault.
    ghost read_spelling: { Reading Spelling };

    /// The value with these contents, or the kind of error of their first fault.
    ghost read: { Reading Value };

    /// The contents of valid spellings are read, and no others, and faults are about the bytes.
    ghost law: { ReadsPrinted valid printed read_spelling };

    /// What is written is the shortest.
    ghost shortest: { WritesShortest valid printed means written };

    /// The value that is read is what the spelling means.
    ghost reads_alike: { ReadsAlike read_spelling means read };

    /// Which octets the contents may begin with, if there are any. Rows of parts say it, since an OPTIONAL part may stand in
    /// front of them.
    ghost begins: { Begins printed };
}

/// A type whose values have encodings: those that are printed of their spellings.
pub trait Encoding {
    /// What values of the type mean: the same for borrowed and owned types.
    ghost Value: { Type 0 };

    /// What a value means.
    ghost value: { Self → Value };

    /// What stands in the bytes: a value, or one of its spellings.
    ghost Spelling: { Type 0 };

    /// What a spelling means.
    ghost means: { Spelling → Value };

    /// The spelling that is written.
    ghost written: { Value → Spelling };

    /// Which spellings have an encoding.
    ghost valid: { Spelling → Type 0 };

    /// Their encodings.
    ghost printed: { Spelling → List ℕ };

    /// The spelling whose encoding is at the front, with the bytes behind it, or the kind of error of the first fault.
    ghost read_spelling: { FrontReading Spelling };

    /// The value whose encoding is at the front, with the bytes behind it, or the kind of error of the first fault.
    ghost read_front: { FrontReading Value };

    /// The encodings of valid spellings are read, and no others, and faults are about the bytes.
    ghost law: { ReadsFrontPrinted valid printed read_spelling };

    /// What is written is the shortest.
    ghost shortest: { WritesShortest valid printed means written };

    /// No encoding is empty.
    ghost some: { (s : Spelling) → 0 < length (printed s) };

    /// The value that is read is what the spelling means.
    ghost reads_alike: { ReadsFrontAlike read_spelling means read_front };

    /// Which octets the encodings may begin with.
    ghost starts: { Starts printed };

    /// False only if no encoding of the type begins with the octet of the tag.
    fn may_start_with(tag: Tag) -> bool
        ensures { result ≡ starts.with tag.octet };
}

/// A type with an `==` that is true exactly if both sides hold the same value.
pub trait EqualByValue: Encoding + PartialEq {
    /// `==` is true exactly if both sides hold the same value.
    ghost decides: { (a b : Self) → Decides (Self.eq a b) (Self.value a ≡ Self.value b) };
}

/// Whether both sides hold the same value: `==`, with a contract that says so of any type.
#[inline(always)]
pub fn equal<T: EqualByValue>(left: &T, right: &T) -> bool
    ensures { Decides result (T.value left.now ≡ T.value right.now) }
{
    *left == *right
}

/// A tag as a type, which `TaggedBy` names for types of any lifetimes and parameters.
pub trait TagMarker {
    /// The tag, for contracts.
    ghost TAG: { Tag };

    /// The tag.
    const TAG: Tag;
}

/// A type whose encodings have the tag of a marker.
pub trait TaggedBy {
    /// The marker of the tag. Types with the same marker can't be told apart by their tags.
    type Marker: TagMarker;
}

/// A type whose encodings all have one tag.
pub trait FixedTag {
    /// The tag, for contracts.
    ghost TAG: { Tag };

    /// The tag that each encoding begins with.
    const TAG: Tag;
}

impl<T: TaggedBy> FixedTag for T {
    ghost TAG = { T.Marker.TAG };

    const TAG: Tag = T::Marker::TAG;
}

/// The marker of INTEGER.
#[derive(Drop)]
pub struct IntegerTag;

impl TagMarker for IntegerTag {
    ghost TAG = { integer_tag };

    const TAG: Tag = Tag::INTEGER;
}

/// The marker of SEQUENCE and SEQUENCE OF.
#[derive(Drop)]
pub struct SequenceTag;

impl TagMarker for SequenceTag {
    ghost TAG = { sequence_tag };

    const TAG: Tag = Tag::SEQUENCE;
}

/// A type whose encodings are SEQUENCEs.
pub trait Sequence<'a>: FixedTag {
    /// The tag is that of SEQUENCE.
    ghost is_sequence: { Self.TAG ≡ sequence_tag };
}

impl<'a, T: TaggedBy<Marker = SequenceTag>> Sequence<'a> for T {
    ghost is_sequence = { refl };
}

impl<T: Contents + FixedTag> Encoding for T {
    ghost Value = { T.Value };

    ghost value = { T.value };

    ghost Spelling = { T.Spelling };

    ghost means = { T.means };

    ghost written = { T.written };

    ghost valid = { T.valid };

    ghost printed = { λ s. standard.tlv T.TAG.octet (T.printed s) };

    ghost read_spelling = { tagged T.TAG T.read_spelling };

    ghost read_front = { tagged T.TAG T.read };

    ghost law = { tagged_law T.law T.TAG };

    ghost shortest = { tagged_shortest T.shortest T.TAG.octet };

    ghost some = { tagged_some T.printed T.TAG.octet };

    ghost reads_alike = { tagged_alike T.reads_alike T.TAG };

    ghost starts = { tagged_starts T.printed T.TAG.octet };

    #[inline(always)]
    fn may_start_with(tag: Tag) -> bool {
        T::TAG.octet() == tag.octet()
    }
}
