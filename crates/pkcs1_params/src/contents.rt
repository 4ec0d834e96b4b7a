//! Contents octets of parameters, under a mask that says which of their defaults are written. `non_defaults` is what
//! `non_defaults_in` returns.
ghost use Rattle.std.specs.Prelude.{◌≡◌, ◌≤◌, ⊤, length};
ghost use Rattle.der_core.specs.Words.{Appends, Checks, RefusedAs, limit};
ghost use Rattle.pkcs1_params.specs.DefaultBits.{bits_of};
ghost use Rattle.spki_core.specs.Words.{AreSpelled, are_defaults, record_fields, record_under, spelling_printed};

use crate::fields::Fields;
use crate::spelling::EncodeParams;
use der_core::{Prepend, Result, Writer};

/// They may always be encoded.
#[inline(always)]
pub(crate) fn check_contents<T: EncodeParams>(params: T, _mask: u8) -> Result<()>
    ensures checks { Checks (AreSpelled T.form.kinds (record_under T.form _mask (T.params params))) result }
    ensures tag { RefusedAs (λ _. ⊥) result }
{
    params.lemma_is_valid();
    Ok(())
}

/// Appends them.
#[inline(always)]
pub(crate) fn append_contents<T: EncodeParams, W: Writer>(
    params: T,
    non_defaults: u8,
    mask: u8,
    writer: &mut W,
) -> Result<()>
    requires non_defaults { non_defaults ≡ bits_of (are_defaults (record_fields T.form (T.params params))) }
    requires fits { length (spelling_printed T.form.kinds (record_under T.form mask (T.params params))) ≤ limit }
    ensures appends { let octets = spelling_printed T.form.kinds (record_under T.form mask (T.params params)) in
        Appends ⊤ octets W.room W.written writer.old writer.new result }
    ensures kept { W.keeps writer.old writer.new }
{
    params.fields().append(non_defaults, mask, writer)
}

/// Writes them in front of what was received, or counts them.
#[inline(always)]
pub(crate) fn prepend_contents<T: EncodeParams, W: Prepend>(
    params: T,
    non_defaults: u8,
    mask: u8,
    writer: &mut W,
)
    requires non_defaults { non_defaults ≡ bits_of (are_defaults (record_fields T.form (T.params params))) }
    requires room { let octets = spelling_printed T.form.kinds (record_under T.form mask (T.params params)) in
        W.has_room writer.old (length octets) × W.length_fits (length octets) }
    ensures { let octets = spelling_printed T.form.kinds (record_under T.form mask (T.params params)) in
        W.prepended octets writer.old writer.new }
{
    params.fields().prepend(non_defaults, mask, writer);
}
