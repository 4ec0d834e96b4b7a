//! The words of rows about spellings of parameters: each public function with a `Told` writes a row's output to it, or
//! the trouble for which there is none.
use crate::into::{after, untouched};
use crate::told::{PrintedError, Told};
use der_core::Decode;
use pkcs1::{
    EncodeParams, Result, RsaOaepParams, RsaOaepParamsView, RsaPssParams, RsaPssParamsView,
};
use spki_core::AnyValue;
use std::alloc::Global;

/// Parameters with spellings.
pub trait Spelled {
    /// Writes the spelling under the mask into the slice, and returns its length. `Err` if the mask is none of the
    /// parameters.
    fn spell_into(&self, mask: u8, slice: &mut [u8]) -> Spelling;

    /// All spellings, by mask.
    fn all_spellings(&self, alloc: Global) -> Result<Vec<Vec<u8>>>;
}

/// The mask isn't below the number of spellings.
#[derive(Drop)]
pub struct NoMask;

/// The length of the spelling under a mask, or why it isn't written.
pub type Spelling = std::result::Result<Result<usize>, NoMask>;

/// The length of what was written.
fn length_of(spelling: Result<&[u8]>) -> Result<usize> {
    Ok(spelling?.len())
}

impl<P: AnyValue> Spelled for RsaPssParams<P> {
    fn spell_into(&self, mask: u8, slice: &mut [u8]) -> Spelling {
        match 2_u32.checked_pow(u32::from(self.default_fields())) {
            Some(masks) if u32::from(mask) < masks => Ok(length_of(self.encode_spelling(
                mask, slice,
            ))),
            _ => Err(NoMask),
        }
    }

    fn all_spellings(&self, alloc: Global) -> Result<Vec<Vec<u8>>> {
        self.spellings(alloc)
    }
}

impl<P: AnyValue> Spelled for RsaOaepParams<P> {
    fn spell_into(&self, mask: u8, slice: &mut [u8]) -> Spelling {
        match 2_u32.checked_pow(u32::from(self.default_fields())) {
            Some(masks) if u32::from(mask) < masks => Ok(length_of(self.encode_spelling(
                mask, slice,
            ))),
            _ => Err(NoMask),
        }
    }

    fn all_spellings(&self, alloc: Global) -> Result<Vec<Vec<u8>>> {
        self.spellings(alloc)
    }
}

impl Spelled for RsaPssParamsView<'_> {
    fn spell_into(&self, mask: u8, slice: &mut [u8]) -> Spelling {
        match 2_u32.checked_pow(u32::from(self.default_fields())) {
            Some(masks) if u32::from(mask) < masks => Ok(self.encode_spelling_into(mask, slice)),
            _ => Err(NoMask),
        }
    }

    fn all_spellings(&self, alloc: Global) -> Result<Vec<Vec<u8>>> {
        self.spellings(alloc)
    }
}

impl Spelled for RsaOaepParamsView<'_> {
    fn spell_into(&self, mask: u8, slice: &mut [u8]) -> Spelling {
        match 2_u32.checked_pow(u32::from(self.default_fields())) {
            Some(masks) if u32::from(mask) < masks => Ok(self.encode_spelling_into(mask, slice)),
            _ => Err(NoMask),
        }
    }

    fn all_spellings(&self, alloc: Global) -> Result<Vec<Vec<u8>>> {
        self.spellings(alloc)
    }
}

/// How many spellings the parameters have, and these by mask.
fn listed<'a, T: Decode<&'a [u8], Global> + Spelled>(to: &mut Told, bytes: &'a [u8]) {
    let Ok(params) = T::from_der(to.alloc(), bytes) else {
        return to.malformed();
    };
    match params.all_spellings(to.alloc()) {
        Ok(texts) => {
            to.number(texts.len());
            for text in &texts {
                to.text(" ");
                to.digits(text.as_slice());
            }
        }
        Err(error) => error.told(to),
    }
}

/// `pss-spellings HEX`, `oaep-spellings HEX`: all spellings, of the borrowed parameters, of those that own their parts
/// and of the view.
pub fn spellings<
    'a,
    B: Decode<&'a [u8], Global> + Spelled,
    O: Decode<&'a [u8], Global> + Spelled,
    V: Decode<&'a [u8], Global> + Spelled,
>(to: &mut Told, bytes: &'a [u8]) {
    listed::<B>(to, bytes);
    to.way("owned");
    listed::<O>(to, bytes);
    to.way("view");
    listed::<V>(to, bytes);
}

/// What a slice of this length holds after writing the spelling under the mask.
fn under_mask<'a, T: Decode<&'a [u8], Global> + Spelled>(
    to: &mut Told,
    mask: u8,
    room: usize,
    bytes: &'a [u8],
) {
    let Ok(params) = T::from_der(to.alloc(), bytes) else {
        return to.malformed();
    };
    let mut slice = untouched(to, room);
    match params.spell_into(mask, slice.as_mut_slice()) {
        Ok(answer) => after(to, answer, slice.as_slice()),
        Err(NoMask) => to.malformed(),
    }
}

/// `pss-spell M N HEX`, `oaep-spell M N HEX`: what a slice of N bytes holds after writing the spelling under the mask
/// M, of the borrowed parameters and of the view.
pub fn spell<'a, B: Decode<&'a [u8], Global> + Spelled, V: Decode<&'a [u8], Global> + Spelled>(
    to: &mut Told,
    mask: u8,
    room: usize,
    bytes: &'a [u8],
) {
    under_mask::<B>(to, mask, room, bytes);
    to.way("view");
    under_mask::<V>(to, mask, room, bytes);
}
