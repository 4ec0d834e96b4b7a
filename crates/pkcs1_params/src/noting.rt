//! Parameters that are read field by field, and the first field that is written though it has its default.
ghost use Rattle.std.specs.Prelude.{◌≤◌, length, option_map};
ghost use Rattle.der_core.specs.Words.{Answers, limit};
ghost use Rattle.spki_core.specs.Words.{record_noted, tag_number_in};
ghost use Rattle.pkcs1_params.specs.Words.{oaep_record, oaep_viewed, pss_record, pss_viewed};

use crate::hash_fields::{mgf1_with, with_null};
use crate::hash_functions::Sha1;
use crate::holders::{MaskHolder, PlainHolder};
use crate::label::empty_source;
use crate::oaep::RsaOaepParamsView;
use crate::pss::{RsaPssParamsRef, RsaPssParamsView};
use crate::trailer_field::TrailerField;
use der_core::{DecodeParts, NoMemory, Result, TagNumber};
use spki_core::{note, read_field};

/// RSASSA-PSS parameters.
pub(crate) fn note_pss(contents: &[u8]) -> Result<(RsaPssParamsView<'_>, Option<TagNumber>)>
    requires { length contents.now ≤ limit }
    ensures { let noted = record_noted pss_record contents.now in
        Answers (λ p. (pss_viewed p.0, option_map tag_number_in p.1)) result noted }
{
    let number = TagNumber::new(0);
    let default = with_null::<Sha1, _, _, _>(NoMemory);
    let (hash, mask_part) = read_field(NoMemory, contents, number, default)?;
    let noted = note(None, contents, number, hash.is_default_hash());
    let number = TagNumber::new(1);
    let default = mgf1_with::<Sha1, _, _, _>(NoMemory);
    let (mask_gen, salt_part) = read_field(NoMemory, mask_part, number, default)?;
    let noted = note(noted, mask_part, number, mask_gen.is_default());
    let number = TagNumber::new(2);
    let default = RsaPssParamsRef::SALT_LEN_DEFAULT;
    let (salt_len, last_part) = read_field(NoMemory, salt_part, number, default)?;
    let noted = note(noted, salt_part, number, salt_len == default);
    let number = TagNumber::new(3);
    let default = TrailerField::BC;
    let (trailer_field, rest) = read_field(NoMemory, last_part, number, default)?;
    let noted = note(noted, last_part, number, true);
    <()>::read_parts(NoMemory, rest)?;
    let params = RsaPssParamsView {
        hash,
        mask_gen,
        salt_len,
        trailer_field,
    };
    Ok((params, noted))
}

/// RSAES-OAEP parameters.
pub(crate) fn note_oaep(contents: &[u8]) -> Result<(RsaOaepParamsView<'_>, Option<TagNumber>)>
    requires { length contents.now ≤ limit }
    ensures { let noted = record_noted oaep_record contents.now in
        Answers (λ p. (oaep_viewed p.0, option_map tag_number_in p.1)) result noted }
{
    let number = TagNumber::new(0);
    let default = with_null::<Sha1, _, _, _>(NoMemory);
    let (hash, mask_part) = read_field(NoMemory, contents, number, default)?;
    let noted = note(None, contents, number, hash.is_default_hash());
    let number = TagNumber::new(1);
    let default = mgf1_with::<Sha1, _, _, _>(NoMemory);
    let (mask_gen, source_part) = read_field(NoMemory, mask_part, number, default)?;
    let noted = note(noted, mask_part, number, mask_gen.is_default());
    let number = TagNumber::new(2);
    let default = empty_source::<_, _, _>(NoMemory);
    let (p_source, rest) = read_field(NoMemory, source_part, number, default)?;
    let noted = note(noted, source_part, number, p_source.is_default_source());
    <()>::read_parts(NoMemory, rest)?;
    let params = RsaOaepParamsView {
        hash,
        mask_gen,
        p_source,
    };
    Ok((params, noted))
}
