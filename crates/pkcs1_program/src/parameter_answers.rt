//! What is answered to a line with parameters, for each word: `answer.rt` calls it. How parameters are read and printed
//! is in `parameter_text.rt`.
ghost use Rattle.std.specs.Prelude.{◌≡◌, ℕ, List, ◌++◌, OnOk, map, codes, flat_map};
ghost use Rattle.pkcs1_params.specs.Words.{EncodingOfFields};
ghost use Rattle.pkcs1_program.specs.Words.{Puts, TellsParameters, TellsSame, TellsSpellings, TellsStrict, hex_field, spell_answer};

use crate::digits::{put_field, put_number};
use crate::parameter_text::Parameters;
use crate::verdict::{put_refused, put_verdict};
use std::alloc::{AllocError, Global};

/// Appends the output for `pss` or `oaep` to `out`. `buffer` may hold anything.
pub fn answer_parameters<'a, T: Parameters<'a>>(
    encoding: &'a [u8],
    buffer: &mut Vec<u8>,
    out: &mut Vec<u8>,
) -> Result<(), AllocError>
    ensures { let answers = TellsParameters (EncodingOfFields T.Is T.fields_of) T.fields_of T.answer_of encoding.now in
        OnOk result (Puts answers out.old.items out.new.items) }
{
    match T::read(encoding) {
        Some(params) => {
            buffer.resize(encoding.len(), 0)?;
            match params.encode_to_slice(buffer.as_mut_slice()) {
                Ok(again) => params.put(params.defaults(), again, out),
                Err(_) => unreachable!(),
            }
        }
        None => put_refused(out),
    }
}

/// Appends a space and each encoding to `out`, in order.
fn put_encodings(encodings: &[Vec<u8>], out: &mut Vec<u8>) -> Result<(), AllocError>
    ensures { OnOk result (out.new.items ≡ out.old.items
        ++ flat_map (λ encoding. hex_field (codes " ") encoding.items) encodings.now) }
{
    for encoding in encodings {
        put_field(b" ", encoding.as_slice(), out)?;
    }
    Ok(())
}

/// Appends to `out` the word, the number of encodings, and each of them.
fn put_spellings(word: &[u8], encodings: &[Vec<u8>], out: &mut Vec<u8>) -> Result<(), AllocError>
    ensures { let told = spell_answer word.now (map (λ encoding. encoding.items) encodings.now) in
        OnOk result (out.new.items ≡ out.old.items ++ told) }
{
    out.extend_from_slice(word)?;
    put_number(b" ", encodings.len(), out)?;
    put_encodings(encodings, out)
}

/// Appends to `out` all encodings of the parameters that `encoding` means, ordered by mask.
pub fn answer_spell<'a, T: Parameters<'a>>(
    alloc: Global,
    word: &[u8],
    encoding: &'a [u8],
    out: &mut Vec<u8>,
) -> Result<(), AllocError>
    ensures { let answers = TellsSpellings word.now T.Is T.fields_of encoding.now in
        OnOk result (Puts answers out.old.items out.new.items) }
{
    let Some(params) = T::read(encoding) else {
        return put_refused(out);
    };
    match params.all_encodings(alloc)? {
        Some(encodings) => put_spellings(word, encodings.as_slice(), out),
        None => put_refused(out),
    }
}

/// Appends to `out` whether `encoding` is the shortest encoding of the parameters that it means.
pub fn answer_strict<'a, T: Parameters<'a>>(
    word: &[u8],
    encoding: &'a [u8],
    out: &mut Vec<u8>,
) -> Result<(), AllocError>
    ensures { let answers = TellsStrict word.now (EncodingOfFields T.Is T.fields_of) encoding.now in
        OnOk result (Puts answers out.old.items out.new.items) }
{
    match T::read(encoding) {
        Some(_params) => put_verdict(word, T::is_strict(encoding), out),
        None => put_refused(out),
    }
}

/// Appends to `out` whether both encodings mean the same parameters.
pub fn answer_same<'a, T: Parameters<'a>>(
    word: &[u8],
    first: &'a [u8],
    second: &'a [u8],
    out: &mut Vec<u8>,
) -> Result<(), AllocError>
    ensures { let answers = TellsSame word.now (EncodingOfFields T.Is T.fields_of) first.now second.now in
        OnOk result (Puts answers out.old.items out.new.items) }
{
    match (T::read(first), T::read(second)) {
        (Some(params), Some(others)) => put_verdict(word, params.is_same(&others), out),
        _ => put_refused(out),
    }
}
