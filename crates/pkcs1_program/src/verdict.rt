//! Outputs without a value.
ghost use Rattle.std.specs.Prelude.{◌≡◌, ◌++◌, OnOk, codes, if◌then◌else◌};

use std::alloc::AllocError;

/// Appends `refused` to `out`.
pub fn put_refused(out: &mut Vec<u8>) -> Result<(), AllocError>
    ensures { OnOk result (out.new.items ≡ out.old.items ++ codes "refused") }
{
    out.extend_from_slice(b"refused")
}

/// Appends the word to `out`, and then ` yes` or ` no`.
pub fn put_verdict(word: &[u8], holds: bool, out: &mut Vec<u8>) -> Result<(), AllocError>
    ensures { let told = word.now ++ (if holds then codes " yes" else codes " no") in
        OnOk result (out.new.items ≡ out.old.items ++ told) }
{
    out.extend_from_slice(word)?;
    if holds {
        out.extend_from_slice(b" yes")
    } else {
        out.extend_from_slice(b" no")
    }
}
