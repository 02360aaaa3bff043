// Records that stop at each layer, and where.
use crate::play::play;
use std::process::Abort;
use std::test::Fail;

// These bytes stop with this refusal, in this layer, at this offset.
fn stops(rt: &impl Abort, src: &[u8], number: u16, layer: u16, offset: usize) -> Result<(), Fail> {
    let Some(fault) = play(src).fault else {
        return Err(Fail::new("no fault"));
    };
    assert_eq!(rt; u16::from(fault.refusal), number);
    assert_eq!(rt; u16::from(fault.layer), layer);
    assert_eq!(rt; fault.offset, offset);
    Ok(())
}

#[test]
fn frames(rt: HostRuntime) -> Result<(), Fail> {
    stops(&rt, &[7], 18, 1, 0)?;
    stops(&rt, &[5, 0, 1, 0], 18, 1, 0)?;
    stops(&rt, &[0, 0], 20, 1, 0)?;
    stops(&rt, &[1, 0, 9], 20, 1, 0)?;
    stops(&rt, &[0, 0, 1, 0, 2], 20, 1, 0)
}

#[test]
fn kinds_and_lengths(rt: HostRuntime) -> Result<(), Fail> {
    stops(&rt, &[2, 0, 6, 0], 19, 2, 0)?;
    stops(&rt, &[2, 0, 0, 1], 19, 2, 0)?;
    stops(&rt, &[2, 0, 1, 0], 20, 2, 0)?;
    stops(&rt, &[5, 0, 2, 0, 1, 0, 1], 20, 2, 0)?;
    stops(&rt, &[7, 0, 3, 0, 1, 0, 1, 0, 0], 20, 2, 0)?;
    stops(&rt, &[4, 0, 4, 0, 1, 0], 20, 2, 0)?;
    stops(&rt, &[5, 0, 4, 0, 1, 0, 0], 1, 2, 0)?;
    stops(&rt, &[5, 0, 4, 0, 1, 0, 6], 1, 2, 0)?;
    stops(&rt, &[5, 0, 4, 0, 1, 0, 1], 20, 2, 0)?;
    stops(&rt, &[5, 0, 5, 0, 0, 0, 0], 20, 2, 0)
}

// A unit is registered once; the second record of it is refused where it begins.
#[test]
fn unit_twice(rt: HostRuntime) -> Result<(), Fail> {
    let twice = b"\x14\0\x01\0\x65\0\x01\x01\x78\0\x28\0\x32\0\x0a\0\x28\0\x04\0\x04\0\
        \x14\0\x01\0\x65\0\x01\x01\x78\0\x28\0\x32\0\x0a\0\x28\0\x04\0\x04\0";
    let once = play(&twice[0..22]);
    assert!(rt; once.fault.is_none());
    assert_eq!(rt; once.book.units().len(), 1);
    stops(&rt, twice, 5, 3, 22)
}

// A unit, its availability 120, notification 80, offer of 60 at -1 and 60 at 40000, and closing at 30000.
#[test]
fn one_interval(rt: HostRuntime) {
    let played = play(
        b"\x14\0\x01\0\x65\0\x01\x01\x78\0\x28\0\x32\0\x0a\0\x28\0\x04\0\x04\0\
        \x06\0\x02\0\x65\0\x78\0\
        \x06\0\x03\0\x65\0\x50\0\
        \x11\0\x04\0\x65\0\x02\x3c\0\xff\xff\xff\xff\x3c\0\x40\x9c\0\0\
        \x06\0\x05\0\x30\x75\0\0",
    );
    assert!(rt; played.fault.is_none());
    assert!(rt; played.book.is_closed());
}
