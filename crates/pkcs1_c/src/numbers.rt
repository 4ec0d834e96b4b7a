//! Numbers that the caller passes.
ghost use Rattle.std.specs.Prelude.{◌≡◌, ◌<◌, ◌≤◌, ◌-◌, ◌^◌, length, OnOk, IfOk, IfErr};
ghost use Rattle.std.specs.Int.Digits.{number_from_digits};
ghost use Rattle.der_core.specs.Words.{IsBitLength, bytes_of, limit};
ghost use Rattle.pkcs1_c.specs.Words.{status_of, NumberError, NoStatus};
ghost use Rattle.standard.specs.Statement.{octets};

use pkcs1::UintRef;

/// The number with these bytes. Returns `Length` if there are no bytes, `Overflow` if the number is longer than the
/// limit.
#[inline(always)]
pub(crate) fn number<'a>(bytes: &'a [u8]) -> pkcs1::Result<UintRef<'a>>
    ensures ok { IfOk result (λ n. number_from_digits 256 (bytes_of n) ≡ number_from_digits 256 bytes.now) }
    ensures held { OnOk result (NoStatus (NumberError bytes.now)) }
    ensures err { IfErr result (λ e. NumberError bytes.now (status_of e)) }
{
    Ok(UintRef::new(bytes)?)
}

/// The bit length of the number with these bytes. Zeros in front don't count. It is 0 of no bytes, and `u64::MAX` of a
/// number that is longer than the limit.
#[unsafe(no_mangle)]
pub extern "C" fn pkcs1_c_bit_len(number: &[u8]) -> u64
    ensures bits { let n = number_from_digits 256 number.now in
        0 < length number.now → length (octets n) ≤ limit → IsBitLength n result }
    ensures none { length number.now ≡ 0 → result ≡ 0 }
    ensures longer { let n = number_from_digits 256 number.now in
        0 < length number.now → limit < length (octets n) → result ≡ 2 ^ 64 - 1 }
{
    match UintRef::new(number) {
        Ok(held) => held.bit_len(),
        Err(_) if number.is_empty() => 0,
        Err(_) => u64::MAX,
    }
}
