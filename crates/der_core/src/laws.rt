//! Laws of definitions, comparing, copying and reading: functions that do nothing, each with a law as its contract.
ghost use Rattle.std.specs.Prelude.{◌≡◌, ◌≤◌, ◌<◌, ◌^◌, ◌↔◌, ℕ, List, length, Result, Decides};
ghost use Rattle.std.specs.Ordering.{nat_cmp};
ghost use Rattle.standard.specs.Statement as standard;
ghost use Rattle.der_core.specs.Words.{encoding_of, octets_of, ReadsAlike, ReadsFrontPrinted, ReadsPrinted, ReadsContents, ReadsFronts, alone, last, optional_front, tagged, bytes_of, Answers, AreBytes, Prints, PrintsOne, ReadsFrontAlike, Spells, limit, number_from_digits, ok_of, WritesShortest, value_in, whole, IsCanonical, IsLength, NumberContents, Tlv};
ghost use Rattle.der_core.specs.declared.document.DocumentOf as documents;
ghost use Rattle.der_core.specs.declared.document.Open as marks;
ghost use Rattle.der_core.specs.declared.error.Error as errors;
ghost use Rattle.der_core.specs.declared.error.ErrorKind as kinds;
ghost use Rattle.der_core.specs.declared.header.Header as headers;
ghost use Rattle.der_core.specs.declared.integer.uint.UintRef as numbers;
ghost use Rattle.der_core.specs.declared.octet_string.OctetStringRef as strings;
ghost use Rattle.der_core.specs.declared.tag.Tag as octets;
ghost use Rattle.der_core.specs.declared.tag.TagNumber as tags;

use crate::document::{DocumentOf, Open};
use crate::error::{Error, ErrorKind};
use crate::grammar::{Contents, Encoding, FixedTag};
use crate::header::Header;
use crate::integer::UintRef;
use crate::length::Length;
use crate::octet_string::OctetStringRef;
use crate::tag::{Tag, TagNumber};

/// The functions of `Statement.antt` give what the relations of this crate hold of, and nothing else.
///
/// - `length`: the length octets, of each length that has any.
/// - `octets`: the octets of a number, which are canonical.
/// - `integer`: the encoding of a number.
/// - `tlv`: the encoding with these contents.
pub fn lemma_statement_gives_the_relations()
    ensures length { (n : ℕ) (bytes : List ℕ) → n < 256 ^ 126 → (standard.length_octets n ≡ bytes) ↔ IsLength n bytes }
    ensures octets { (n : ℕ) (bytes : List ℕ)
        → (standard.octets n ≡ bytes) ↔ (IsCanonical bytes × (number_from_digits 256 bytes ≡ n)) }
    ensures integer { (n : ℕ) (bytes : List ℕ) → length bytes ≤ limit
        → (standard.integer n ≡ bytes) ↔ Tlv 2 (NumberContents n) bytes }
    ensures tlv { (tag : ℕ) (contents bytes : List ℕ) → length bytes ≤ limit
        → (standard.tlv tag contents ≡ bytes) ↔ Tlv tag (λ c. c ≡ contents) bytes }
{}

/// Lengths compare as their numbers.
pub fn lemma_lengths_compare_by_number()
    ensures order { (a b : ℕ) → ⟦<Length as Ord>⟧.cmp a b ≡ nat_cmp a b }
    ensures equal { (a b : ℕ) → Decides (⟦<Length as PartialEq>⟧.eq a b) (a ≡ b) }
{}

/// Tag numbers are equal exactly if they are the same number.
pub fn lemma_tag_numbers_compare_by_number()
    ensures { (a b : tags.TagNumber) → Decides (⟦<TagNumber as PartialEq>⟧.eq a b) (a.value ≡ b.value) }
{}

/// Tags are equal exactly if their octets are, headers exactly if their tags and lengths are.
pub fn lemma_headers_compare_by_value()
    ensures tag { (a b : octets.Tag) → Decides (⟦<Tag as PartialEq>⟧.eq a b) (a.octet ≡ b.octet) }
    ensures header { (a b : headers.Header)
        → Decides (⟦<Header as PartialEq>⟧.eq a b) ((a.tag.octet ≡ b.tag.octet) × (a.length ≡ b.length)) }
{}

/// Documents are equal exactly if they hold the same bytes. Secret ones can't be compared.
pub fn lemma_documents_compare_by_bytes()
    ensures { (a b : documents.DocumentOf marks.Open)
        → Decides (⟦<DocumentOf<Open> as PartialEq>⟧.eq a b) (encoding_of a ≡ encoding_of b) }
{}

/// Kinds of errors are equal exactly if they are the same, with the same tags and octets, and errors exactly if their
/// kinds are.
pub fn lemma_kinds_compare_by_value()
    ensures kind { (a b : kinds.ErrorKind) → Decides (⟦<ErrorKind as PartialEq>⟧.eq a b) (a ≡ b) }
    ensures error { (a b : errors.Error) → Decides (⟦<Error as PartialEq>⟧.eq a b) (a ≡ b) }
{}

/// A clone of a borrowed value is the same value.
pub fn lemma_clones_hold_the_same()
    ensures number { (a b : numbers.UintRef) → ⟦<UintRef<'static> as Clone>⟧.is_clone a b → bytes_of b ≡ bytes_of a }
    ensures octets { (a b : strings.OctetStringRef)
        → ⟦<OctetStringRef<'static> as Clone>⟧.is_clone a b → octets_of b ≡ octets_of a }
{}

/// What is printed of a type is read, and nothing else.
///
/// - `law`: the function of spellings reads the contents of valid ones and no others.
/// - `alike`: the function of values gives what they mean.
/// - `reads`: so it gives a value exactly of contents that are printed of it.
/// - `shortest`: what is written is the shortest.
pub fn lemma_contents_are_read<T: Contents>()
    ensures law { ReadsPrinted T.valid T.printed T.read_spelling }
    ensures alike { ReadsAlike T.read_spelling T.means T.read }
    ensures reads { ReadsContents (Prints T.valid T.printed T.means) T.read }
    ensures shortest { WritesShortest T.valid T.printed T.means T.written }
{}

/// What is printed of a type is read at the front of bytes, and nothing else.
///
/// - `law`: the function of spellings reads the encodings of valid ones and no others.
/// - `alike`: the function of values gives what they mean.
/// - `reads`: so it gives a value exactly of bytes that begin with what is printed of it.
/// - `decodes`: reading a whole slice gives a value exactly if the bytes spell it.
/// - `answers`: so does a call that returns what the function gives.
/// - `one`: no encoding is that of two spellings, or a proper beginning of another.
/// - `shortest`: what is written is shorter than each other encoding of the value.
pub fn lemma_encodings_are_read<T: Encoding>()
    ensures law { ReadsFrontPrinted T.valid T.printed T.read_spelling }
    ensures alike { ReadsFrontAlike T.read_spelling T.means T.read_front }
    ensures reads { ReadsFronts (Prints T.valid T.printed T.means) T.read_front }
    ensures decodes { (bytes : List ℕ) → AreBytes bytes
        → standard.Decodes (Spells T.valid T.printed T.means) bytes (value_in (whole T.read_front bytes)) }
    ensures answers { (bytes : List ℕ) (result : Result T errors.Error) → AreBytes bytes
        → Answers T.value result (whole T.read_front bytes)
        → standard.Decodes (Spells T.valid T.printed T.means) bytes (ok_of T.value result) }
    ensures one { PrintsOne T.valid T.printed }
    ensures shortest { (v : T.Value) → let encoding = T.printed (T.written v) in
        T.valid (T.written v) → length encoding ≤ limit
        → standard.IsShortest (Spells T.valid T.printed T.means) v encoding }
{}

/// What `Last` reads is one encoding or none, what `read_optional` and `decode_optional` read is an encoding, or
/// nothing where the octet of the tag isn't next.
pub fn lemma_optional_parts_are_read<T: Contents + FixedTag>()
    ensures last { let at = tagged T.TAG T.read_spelling in
        ReadsPrinted (standard.IfPresent T.valid) (standard.optional ⟦<T as Encoding>⟧.printed) (last at) }
    ensures next { let at = optional_front T.TAG.octet (tagged T.TAG T.read_spelling) in
        ReadsPrinted (standard.IfPresent T.valid) (standard.optional ⟦<T as Encoding>⟧.printed) (alone at) }
{}
