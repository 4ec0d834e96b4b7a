//! A writer that fills a slice from its end.
ghost use Rattle.std.specs.Prelude.{◌≡◌, ◌+◌, ◌++◌, ◌≤◌, drop, length, take};

use crate::header::Header;
use crate::length::Length;
use crate::prepend::Prepend;
use crate::tag::Tag;

/// Fills a slice from its end to its start, so that the length of the contents is known when their header is written.
#[derive(Drop)]
pub struct BackWriter<'b> {
    slice: &'b mut [u8],
    free: usize,
    ghost fits: { free ≤ length slice.now },
}

/// Copies the octets to where they end at an index, and says where they begin. Where octets that another thread changes
/// were counted as fewer than they are now, there is no room for them, and none is written.
#[inline(always)]
fn fill(slice: &mut [u8], end: usize, bytes: &[u8]) -> usize
    requires room { length bytes.now ≤ end }
    requires within { end ≤ length slice.old }
    ensures start { result + length bytes.now ≡ end }
    ensures copied { slice.new ≡ take result slice.old ++ (bytes.now ++ drop end slice.old) }
{
    if bytes.len() > end {
        return end;
    }
    let start = end - bytes.len();
    let (front, _) = slice.split_at_mut(end);
    let (_, place) = front.split_at_mut(start);
    place.copy_from_slice(bytes);
    start
}

impl<'b> BackWriter<'b> {
    ghost use Rattle.std.specs.Prelude.{◌∷◌};
    ghost use Rattle.der_core.specs.Length.{length_octets};
    ghost use Rattle.der_core.specs.Slices.{back_slice_of, free_of, Prepends};

    /// A writer over this slice, with nothing filled yet.
    pub fn new(slice: &'b mut [u8]) -> BackWriter<'b>
        ensures same_reference { (back_slice_of result).ghost_name ≡ slice.entry.ghost_name }
        ensures same_slice { (back_slice_of result).now ≡ slice.old }
        ensures empty { free_of result ≡ length slice.old }
    {
        let free = slice.len();
        BackWriter { slice, free }
    }

    /// How many octets there is still room for.
    pub fn free(&self) -> usize
        ensures { result ≡ free_of self.now }
    {
        self.free
    }

    /// The filled part: the end of the slice.
    pub fn finish(self) -> &'b [u8]
        ensures { result.now ≡ drop (free_of self.entry) (back_slice_of self.entry).now }
    {
        let free = self.free;
        let slice = self.slice;
        &slice[free..]
    }

    /// Writes the octets in front of what is filled.
    #[inline(always)]
    fn put(&mut self, bytes: &[u8])
        requires { length bytes.now ≤ free_of self.old }
        ensures { Prepends bytes.now self.old self.new }
    {
        self.free = fill(self.slice, self.free, bytes);
    }

    /// Writes a header in front of what is filled.
    #[inline(always)]
    #[tactic(auto, using(crate::proofs::Lengths::known_lengths))]
    fn put_header(&mut self, header: Header)
        requires { 1 + length (length_octets header.length) ≤ free_of self.old }
        ensures { Prepends (header.tag.octet ∷ length_octets header.length) self.old self.new }
    {
        let tag = header.tag.octet();
        let number = header.length.to_usize();
        if number < 0x80 {
            self.put(&[tag, number as u8]);
        } else if number < 0x100 {
            self.put(&[tag, 0x81, number as u8]);
        } else if number < 0x1_0000 {
            self.put(&[tag, 0x82, (number / 0x100) as u8, (number % 0x100) as u8]);
        } else if number < 0x100_0000 {
            self.put(&[
                tag,
                0x83,
                (number / 0x1_0000) as u8,
                (number / 0x100 % 0x100) as u8,
                (number % 0x100) as u8,
            ]);
        } else {
            self.put(&[
                tag,
                0x84,
                (number / 0x100_0000) as u8,
                (number / 0x1_0000 % 0x100) as u8,
                (number / 0x100 % 0x100) as u8,
                (number % 0x100) as u8,
            ]);
        }
    }
}

impl Prepend for BackWriter<'_> {
    ghost use Rattle.der_core.specs.Length.{limit};
    ghost use Rattle.der_core.specs.Slices.{HasRoom, Prepends, filled_of};
    ghost use Rattle.der_core.specs.Laws.Prepending.{Prepends-nothing, Prepends-through, HasRoom-parts};

    ghost has_room = { HasRoom };

    ghost length_fits = { λ n. n ≤ limit };

    ghost filled = { filled_of };

    ghost prepended = { Prepends };

    #[inline(always)]
    fn filled_len(&self) -> u64 {
        (self.slice.len() - self.free) as u64
    }

    #[inline(always)]
    fn prepend(&mut self, bytes: &[u8]) {
        self.put(bytes);
    }

    #[inline(always)]
    fn prepend_header(&mut self, tag: Tag, before: u64) {
        let length = Length::of(self.slice.len() - self.free - before as usize);
        self.put_header(Header { tag, length });
    }

    ghost prepended_nothing = { Prepends-nothing };

    ghost prepended_through = { Prepends-through };

    ghost room_for_parts = { HasRoom-parts };
}
