//! A counter of octets.
ghost use Rattle.std.specs.Prelude.{◌≡◌, ◌≤◌, ◌<◌, IfOk, IfErr};
ghost use Rattle.der_core.specs.Words.{limit};
ghost use Rattle.der_core.specs.declared.error.ErrorKind.{ErrorKind};

use crate::error::Result;
use crate::length::{Length, with_header};
use crate::prepend::Prepend;
use crate::tag::Tag;

/// Counts the octets that it receives: exactly up to `Length::MAX`.
#[derive(Drop)]
pub struct Counter {
    sum: u64,
}

impl Counter {
    ghost use Rattle.der_core.specs.Counting.{sum_of};

    /// Nothing is counted yet.
    #[inline(always)]
    pub fn new() -> Counter
        ensures { sum_of result ≡ 0 }
    {
        Counter { sum: 0 }
    }

    /// How many octets were counted. `Overflow` exactly if they are more than `Length::MAX`.
    #[inline(always)]
    pub fn length(&self) -> Result<Length>
        ensures ok { IfOk result (λ n. (n ≡ sum_of self.now) × (n ≤ limit)) }
        ensures err { IfErr result (λ e. (e.kind ≡ ErrorKind.Overflow) × (limit < sum_of self.now)) }
    {
        Length::counted(self.sum)
    }
}

impl Prepend for Counter {
    ghost use Rattle.der_core.specs.Counting.{Counted, sum_of};
    ghost use Rattle.der_core.specs.Laws.Prepending.{Counted-nothing, Counted-through};

    ghost has_room = { λ _ _. Unit {0} };

    ghost length_fits = { λ _. Unit {0} };

    ghost filled = { sum_of };

    ghost prepended = { Counted };

    #[inline(always)]
    fn filled_len(&self) -> u64 {
        self.sum
    }

    #[inline(always)]
    fn prepend(&mut self, bytes: &[u8]) {
        self.sum = self.sum.saturating_add(bytes.len() as u64);
    }

    #[inline(always)]
    fn prepend_header(&mut self, _tag: Tag, before: u64) {
        let encoding = with_header(self.sum.saturating_sub(before));
        self.sum = before.saturating_add(encoding);
    }

    ghost prepended_nothing = { Counted-nothing };

    ghost prepended_through = { Counted-through };

    ghost room_for_parts = { λ _ _ _ _. ((tt, tt), λ _ _. (tt, tt)) };
}
