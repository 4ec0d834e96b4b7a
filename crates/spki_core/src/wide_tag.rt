//! Tags of encodings of any tag, as they are held.
ghost use Rattle.std.specs.Prelude.{◌≡◌, ◌<◌, IsTrue};
ghost use Rattle.der_core.specs.Words.{is_allowed};

use der_core::Tag;
use std::fmt;

/// A tag in eight octets: with one, `AnyRef` would have padding, and would be copied piece by piece.
#[derive(Clone, Copy, PartialEq, Eq, Drop)]
pub(crate) struct WideTag {
    pub(crate) octet: u64,
    pub(crate) ghost allowed: { IsTrue (is_allowed octet) },
    pub(crate) ghost fits: { octet < 256 },
}

impl WideTag {
    #[inline(always)]
    pub(crate) const fn of(tag: Tag) -> WideTag
        ensures { result.octet ≡ tag.octet }
    {
        WideTag {
            octet: tag.octet() as u64,
        }
    }

    #[inline(always)]
    pub(crate) fn tag(self) -> Tag
        ensures { result.octet ≡ self.octet }
    {
        Tag {
            octet: self.octet as u8,
        }
    }
}

impl fmt::Debug for WideTag {
    fn fmt<W: fmt::Write>(&self, f: &mut fmt::Formatter<W>) -> fmt::Result {
        self.tag().fmt(f)
    }
}
