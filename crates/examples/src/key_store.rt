//! A store of private keys, of which those of at least 2048 bits are copied.
ghost use Rattle.std.specs.Prelude.{◌≡◌, ◌≢◌, ℕ, List, IfErr, IfOk, IfSome, IsErrOf, IsNone, OnOk, ◌⊎◌, None};
ghost use Rattle.std.specs.Io.KnownBytes.{Appends, Keeps};
ghost use Rattle.standard.specs.Statement.{Decodes};
ghost use Rattle.der_core.specs.Words.{AppendsFront, GivesAll, OneFailed, WhyReadingStopped};
ghost use Rattle.pkcs1.specs.Words.{held_view};
ghost use Rattle.examples.specs.KeyStore.{BeginsWithEntry, BeginsWithNone, Copies, StoreEncoding, is_long};

use der_core::{Error, Length, Sink, Source, put_all, read_all};
use pkcs1::RsaPrivateKeyView;
use std::alloc::Global;

/// The longest store that is read, in octets.
const LONGEST: usize = 16777216;

/// Why keys weren't copied. Before all but `Write` nothing was written.
#[derive(Clone, Copy, Debug, PartialEq, Eq, Drop)]
pub enum StoreError {
    /// The store wasn't read: a read failed, memory ran out, or it is too long.
    Read(Error),
    /// Memory ran out for the keys.
    Memory,
    /// What was read isn't a store.
    Format,
    /// A write failed. A beginning may have been written.
    Write,
}

/// The key of the first entry of a store, and what stands behind the entry.
fn first_entry(store: &[u8]) -> Option<(RsaPrivateKeyView<'_>, &[u8])>
    ensures some { IfSome result (λ first. BeginsWithEntry (held_view first.0) store.now first.1.now) }
    ensures none { IsNone result → BeginsWithNone store.now }
{
    match store {
        [a, b, c, d, behind @ ..] => {
            let len = u32::from_be_bytes([*a, *b, *c, *d]) as usize;
            let (encoding, behind) = behind.split_at_checked(len)?;
            match RsaPrivateKeyView::try_from(encoding) {
                Ok(key) => Some((key, behind)),
                Err(_) => None,
            }
        }
        _ => None,
    }
}

/// Whether the modulus of a key has at least 2048 bits.
fn is_long(key: &RsaPrivateKeyView<'_>) -> bool
    ensures { result ≡ is_long (held_view key.now) }
{
    key.modulus().bit_len() >= 2048
}

/// The store of the keys of at least 2048 bits of a store, in order. Err: `Format` of what is no store, or `Memory`.
pub fn long_entries(alloc: Global, store: &[u8]) -> Result<Vec<u8>, StoreError>
    ensures ok { IfOk result (λ kept. Copies store.now kept.items) }
    ensures err { IfErr result (λ e. (e ≡ StoreError.Memory)
        ⊎ ((e ≡ StoreError.Format) × Decodes StoreEncoding store.now None)) }
{
    let mut kept = Vec::new(alloc);
    let mut rest = store;
    while !rest.is_empty() {
        let (key, behind) = match first_entry(rest) {
            Some(first) => first,
            None => return Err(StoreError::Format),
        };
        if is_long(&key) {
            let entry = &rest[..rest.len() - behind.len()];
            if kept.extend_from_slice(entry).is_err() {
                return Err(StoreError::Memory);
            }
        }
        rest = behind;
    }
    Ok(kept)
}

/// Reads a store from a source to its end, and writes the store of its keys of at least 2048 bits to a sink. Ok: the
/// sink took it all and is flushed. Err: as `StoreError` says.
pub fn copy_long_keys<R: Source, W: Sink>(
    alloc: Global,
    source: &mut R,
    sink: &mut W,
) -> Result<(), StoreError>
    ensures ok { OnOk result ((input : List ℕ) × (output : List ℕ) × Copies input output
        × GivesAll (R.remaining source.old) (R.remaining source.new) input
        × Appends (W.contents sink.old) (W.contents sink.new) output) }
    ensures flushed { OnOk result (W.is_flushed sink.new) }
    ensures untouched { IfErr result (λ e. e ≢ StoreError.Write → Keeps (W.contents sink.old) (W.contents sink.new)) }
    ensures read { (e : Error) → IsErrOf result (StoreError.Read e) → WhyReadingStopped 16777216 e.kind
        (R.remaining source.old) (R.remaining source.new) (R.failures source.old) (R.failures source.new) }
    ensures format { IsErrOf result StoreError.Format → (input : List ℕ) × Decodes StoreEncoding input None
        × GivesAll (R.remaining source.old) (R.remaining source.new) input }
    ensures write { IsErrOf result StoreError.Write → (input : List ℕ) × (output : List ℕ) × Copies input output
        × GivesAll (R.remaining source.old) (R.remaining source.new) input
        × AppendsFront (W.contents sink.old) (W.contents sink.new) output
        × OneFailed (W.failures sink.old) (W.failures sink.new) }
{
    let store = match read_all(alloc, source, Length::of(LONGEST)) {
        Ok(store) => store,
        Err(error) => return Err(StoreError::Read(error)),
    };
    let kept = long_entries(alloc, store.as_slice())?;
    match put_all(kept.as_slice(), sink) {
        Ok(()) => {}
        Err(_) => return Err(StoreError::Write),
    }
    match sink.flush() {
        Ok(()) => Ok(()),
        Err(_) => Err(StoreError::Write),
    }
}
