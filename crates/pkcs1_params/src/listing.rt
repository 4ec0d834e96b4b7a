//! The list of all spellings of parameters, by their masks.
ghost use Rattle.std.specs.Prelude.{◌≡◌, ◌≤◌, ◌^◌, ℕ, List, [], length, slice_index_or, IfErr, IfOk, OnOk, Some};
ghost use Rattle.der_core.specs.Words.{limit};
ghost use Rattle.der_core.specs.declared.error.ErrorKind.{ErrorKind};
ghost use Rattle.spki_core.specs.Words.{are_defaults, record_fields, record_under, spelling_printed, number_of_defaults, upto};
ghost use Rattle.pkcs1_params.specs.DefaultBits.{bits_of};
ghost use Rattle.pkcs1_params.specs.Spellings.{EncodingOfFields, IsListingError, encodings_in};
ghost use Rattle.standard.specs.Statement.{IsShortest, Lists, longest, sequence};

use crate::error::Result;
use crate::spelling::{EncodeParams, Spelling, count_defaults, non_defaults_in};
use std::alloc::Global;

/// The encodings under the masks below `count`, in order.
fn encodings_under<T: EncodeParams>(
    params: T,
    non_defaults: u8,
    count: u8,
    alloc: Global,
) -> der_core::Result<Vec<Vec<u8>>>
    requires non_defaults { non_defaults ≡ bits_of (are_defaults (record_fields T.form (T.params params))) }
    requires masks { count ≡ 2 ^ number_of_defaults T.form.kinds (T.form.split (T.params params)) }
    requires fit { length (longest (T.fields_of (T.params params))) ≤ limit }
    ensures ok { let v = T.params params in
        let made : ℕ → List ℕ = λ mask. sequence (spelling_printed T.form.kinds (record_under T.form mask v)) in
        IfOk result (λ encodings. encodings_in encodings ≡ upto count made) }
    ensures err { IfErr result (λ e. e.kind ≡ ErrorKind.OutOfMemory) }
{
    let mut encodings = Vec::new(alloc);
    for mask in 0..count {
        let spelling = Spelling {
            params,
            non_defaults,
            mask,
        };
        encodings.push(spelling.to_vec(alloc)?)?;
    }
    Ok(encodings)
}

/// All spellings, by mask: `Overflow`, before anything is allocated, if the one with every field is too long.
pub(crate) fn all_spellings<T: EncodeParams>(params: T, alloc: Global) -> Result<Vec<Vec<u8>>>
    ensures listed { IfOk result (λ encodings. Lists T.Is T.fields_of (T.params params)
        (Some (encodings_in encodings))) }
    ensures shortest { IfOk result (λ encodings. IsShortest (EncodingOfFields T.Is T.fields_of) (T.params params)
        (slice_index_or (encodings_in encodings) 0 [])) }
    ensures fit { OnOk result (length (longest (T.fields_of (T.params params))) ≤ limit) }
    ensures err { IfErr result (IsListingError (T.fields_of (T.params params))) }
{
    params.lemma_is_valid();
    let count = 1u8 << count_defaults(params);
    let non_defaults = non_defaults_in(params);
    let longest = Spelling {
        params,
        non_defaults,
        mask: count - 1,
    };
    longest.len()?;
    Ok(encodings_under(params, non_defaults, count, alloc)?)
}
