//! NULL (X.690 8.8).
ghost use Rattle.der_core.specs.Words.{null_tag};

use crate::grammar::{TagMarker, TaggedBy};
use crate::record::{EncodeInParts, Record, RowOperation};
use crate::tag::Tag;

/// The tag of NULL.
#[derive(Drop)]
pub struct NullTag;

impl TagMarker for NullTag {
    ghost TAG = { null_tag };

    const TAG: Tag = Tag::NULL;
}

/// NULL, which has no contents octets (8.8.2). `TrailingData` if there are some.
#[derive(Clone, Copy, Debug, PartialEq, Eq, Drop)]
pub struct Null;

impl TaggedBy for Null {
    type Marker = NullTag;
}

impl Record for Null {
    type Fields = ();

    ghost fields = { λ _. tt };

    fn from_fields(_row: ()) -> Null {
        Null
    }
}

impl EncodeInParts for Null {
    ghost refused = { λ _. ⊥ };

    #[inline(always)]
    fn with_row<O: RowOperation>(&self, operation: &mut O) -> O::Output {
        operation.apply(&())
    }
}
