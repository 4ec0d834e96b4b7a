//! Writers.
ghost use Rattle.std.specs.Prelude.{◌≡◌, ℕ, ◌≤◌, List, Option, Some, length, OnOk, OnErr, IfErr};
ghost use Rattle.der_core.specs.Writers.{LacksRoom, Receives, ReceivesNothing, TakesRoom};

use crate::error::{Error, ErrorKind, Result};

/// Takes octets, one slice after another.
pub trait Writer {
    /// How many octets may still be written, if there is a limit.
    ghost room: { Self → Option ℕ };

    /// These octets were written so far. A writer may forget them, and keep a hash of them.
    ghost written: { Self → List ℕ → Type 0 };

    /// What writing never changes: a relation of the writer before and after. Each call that appends keeps it.
    ghost keeps: { Self → Self → Type 0 };

    /// Appends all of the octets, behind whichever were written before, and takes their room. The only error is
    /// `NoRoom`, exactly if there is a limit and too little room. Then nothing is written, and the room is as it was.
    fn write(&mut self, bytes: &[u8]) -> Result<()>
        ensures written { OnOk result (Receives bytes.now (written self.old) (written self.new)) }
        ensures room { OnOk result (TakesRoom (length bytes.now) (room self.old) (room self.new)) }
        ensures err { IfErr result (λ error. (error.kind ≡ ErrorKind.NoRoom)
            × LacksRoom (length bytes.now) (room self.old)) }
        ensures nothing { OnErr result (ReceivesNothing (written self.old) (written self.new)
            × (room self.new ≡ room self.old)) }
        ensures kept { keeps self.old self.new };

    /// A writer that takes nothing keeps itself.
    ghost keeps_itself: { (w : Self) → keeps w w };

    /// What is kept by two steps is kept by both together.
    ghost keeps_through: { (u v w : Self) → keeps u v → keeps v w → keeps u w };
}

/// Writes to a slice from its front.
#[derive(Drop)]
pub struct SliceWriter<'b> {
    slice: &'b mut [u8],
    len: usize,
    ghost fits: { len ≤ length slice.now },
}

impl<'b> SliceWriter<'b> {
    ghost use Rattle.der_core.specs.Slices.{slice_of, len_of, written_of};

    /// A writer over this slice, with nothing written. Bytes behind what is written stay as they are.
    pub fn new(slice: &'b mut [u8]) -> SliceWriter<'b>
        ensures same_reference { (slice_of result).ghost_name ≡ slice.entry.ghost_name }
        ensures same_slice { (slice_of result).now ≡ slice.old }
        ensures empty { len_of result ≡ 0 }
    {
        SliceWriter { slice, len: 0 }
    }

    /// The part that was written.
    pub fn finish(self) -> &'b [u8]
        ensures { result.now ≡ written_of self.entry }
    {
        let len = self.len;
        let slice = self.slice;
        &slice[..len]
    }
}

impl Writer for SliceWriter<'_> {
    ghost use Rattle.der_core.specs.Slices.{room_of, written_of, Keeps};
    ghost use Rattle.der_core.specs.Laws.Numbers.{Keeps-itself, Keeps-through};

    ghost room = { λ w. Some (room_of w) };

    ghost written = { λ w octets. written_of w ≡ octets };

    ghost keeps = { Keeps };

    fn write(&mut self, bytes: &[u8]) -> Result<()> {
        if self.slice.len() - self.len < bytes.len() {
            return Err(Error::new(ErrorKind::NoRoom));
        }
        let start = self.len;
        let end = start + bytes.len();
        self.slice[start..end].copy_from_slice(bytes);
        self.len = end;
        Ok(())
    }

    ghost keeps_itself = { Keeps-itself };

    ghost keeps_through = { Keeps-through };
}
