//! What `finish` of both writers leaves of the slice.
use crate::tests::checks::equal;
use der_core::{BackWriter, Prepend, SliceWriter, Writer};

#[test]
fn the_rest_of_a_slice_is_kept(rt: HostRuntime) {
    let mut slice = [0xaa; 3];
    let mut writer = SliceWriter::new(&mut slice);
    equal(&rt, writer.write(&[0x01, 0x02]), Ok(()));
    equal(&rt, writer.finish(), [0x01, 0x02].as_slice());
    equal(&rt, slice[2], 0xaa);
    let mut slice = [0xaa; 3];
    let mut writer = BackWriter::new(&mut slice);
    writer.prepend(&[0x07]);
    equal(&rt, writer.finish(), [0x07].as_slice());
    equal(&rt, slice[0], 0xaa);
}
