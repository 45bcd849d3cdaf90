// Racks of zeros that memory is found for, and some that no rack can be.
use crate::parts::PlainRack;
use fault::fault::RackFault;
use rack::error::RackError;
use rack::sides::Reading;
use std::test::Fail;

#[test]
fn largest_of_zeros(rt: HostRuntime) -> Result<(), Fail> {
    let mut rack = PlainRack::zeros(rt.alloc(), 260, 64)?;
    assert_eq!(rt; rack.bays(), 260);
    assert_eq!(rt; rack.lines(), 64);
    assert_eq!(rt; rack.read(259, 63), Ok(0));
    Ok(())
}

#[test]
fn no_such_shape(rt: HostRuntime) {
    for (bays, lines, words) in [(0, 1, 0), (261, 64, 16_704), (usize::MAX, 2, usize::MAX)] {
        let refusal = PlainRack::zeros(rt.alloc(), bays, lines).err();
        assert_eq!(rt;
            refusal,
            Some(RackError::Refused(RackFault::BadShape(words))),
            "at {bays} and {lines}"
        );
    }
}
