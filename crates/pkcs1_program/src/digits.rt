//! Bytes in hexadecimal digits, numbers in decimal ones.
ghost use Rattle.std.specs.Prelude.{◌≡◌, ◌++◌, OnOk};
ghost use Rattle.std.specs.Fmt.{decimal};
ghost use Rattle.hex.specs.Hex.{encode_lower};
ghost use Rattle.pkcs1_program.specs.Words.{hex_field, number_field};

use std::alloc::AllocError;

/// Appends the bytes to `out`, in lowercase hexadecimal digits.
pub fn put_hex(bytes: &[u8], out: &mut Vec<u8>) -> Result<(), AllocError>
    ensures { OnOk result (out.new.items ≡ out.old.items ++ encode_lower bytes.now) }
{
    let start = out.len();
    let Some(digits) = bytes.len().checked_mul(2) else {
        return Err(AllocError);
    };
    let Some(end) = start.checked_add(digits) else {
        return Err(AllocError);
    };
    out.resize(end, 0)?;
    match hex::encode_to_slice(bytes, &mut out.as_mut_slice()[start..]) {
        Ok(()) => Ok(()),
        Err(_) => unreachable!(),
    }
}

/// Appends the label to `out`, and then the bytes in hexadecimal digits.
pub fn put_field(label: &[u8], bytes: &[u8], out: &mut Vec<u8>) -> Result<(), AllocError>
    ensures { OnOk result (out.new.items ≡ out.old.items ++ hex_field label.now bytes.now) }
{
    out.extend_from_slice(label)?;
    put_hex(bytes, out)
}

/// Appends the number to `out`, in decimal digits.
fn put_decimal(number: usize, out: &mut Vec<u8>) -> Result<(), AllocError>
    ensures { OnOk result (out.new.items ≡ out.old.items ++ decimal number) }
{
    if number >= 10 {
        put_decimal(number / 10, out)?;
    }
    out.push(b'0' + (number % 10) as u8)?;
    Ok(())
}

/// Appends the label to `out`, and then the number in decimal digits.
pub fn put_number(label: &[u8], number: usize, out: &mut Vec<u8>) -> Result<(), AllocError>
    ensures { OnOk result (out.new.items ≡ out.old.items ++ number_field label.now number) }
{
    out.extend_from_slice(label)?;
    put_decimal(number, out)
}
