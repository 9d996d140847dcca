// Numbers as they are stored, and a damaged sheet for each refusal.
use crate::bytes::Bytes;
use sheet::Sheet;
use source::PriceSource;
use std::test::Fail;
use units::Refusal;

#[test]
fn stored_numbers(rt: HostRuntime) -> Result<(), Fail> {
    let mut bytes = Bytes::new(rt.alloc(), b"")?;
    bytes.number(0)?;
    bytes.number(-1)?;
    bytes.number(64)?;
    assert!(rt; bytes.sheet.as_slice() == [0x00, 0x01, 0x80, 0x01].as_slice());
    let minus_one = Bytes::zeros(rt.alloc(), b"ISP1\x01", 229)?;
    assert!(rt; Sheet::read(minus_one.sheet.as_slice()).zone_net().kw() == -1);
    let sixty_four = Bytes::zeros(rt.alloc(), b"ISP1\x80\x01", 229)?;
    assert!(rt; Sheet::read(sixty_four.sheet.as_slice()).zone_net().kw() == 64);
    let longer = Bytes::zeros(rt.alloc(), b"ISP1\x80\x00", 229)?;
    assert_eq!(rt; longer.printed()?.as_str(), "! 3 4\n");
    Ok(())
}

#[test]
fn least_sheet(rt: HostRuntime) -> Result<(), Fail> {
    let least = Bytes::zeros(rt.alloc(), b"ISP1", 230)?;
    assert!(rt; Sheet::read(least.sheet.as_slice()).check().is_ok());
    assert_eq!(rt;
        least.printed()?.as_str(),
        "1 ! 7\n2 ! 7\n3 ! 7\n4 ! 7\n5 ! 7\n"
    );
    let short = Bytes::zeros(rt.alloc(), b"ISP1", 229)?;
    assert_eq!(rt; short.printed()?.as_str(), "! 1 233\n");
    Ok(())
}

#[test]
fn damaged_heads(rt: HostRuntime) -> Result<(), Fail> {
    let cases = [
        (b"ISP".as_slice(), 0, "! 1 3\n"),
        (b"I".as_slice(), 9, "! 2 1\n"),
        (b"ISP1\x80\x80\x80\x80".as_slice(), 300, "! 3 4\n"),
        (b"ISP1\x00\x02".as_slice(), 300, "! 4 5\n"),
        (b"ISP1".as_slice(), 231, "! 6 234\n"),
    ];
    for (front, count, lines) in cases {
        let bytes = Bytes::zeros(rt.alloc(), front, count)?;
        assert_eq!(rt; bytes.printed()?.as_str(), lines, "at {front:?}");
    }
    let beyond = Bytes::head(rt.alloc(), 100_000_001, None)?;
    assert_eq!(rt; beyond.printed()?.as_str(), "! 5 4\n");
    Ok(())
}

// A fault names its slot beside its place.
#[test]
fn damaged_slot(rt: HostRuntime) -> Result<(), Fail> {
    let mut bytes = Bytes::head(rt.alloc(), 0, Some(-9_999_900))?;
    let start = bytes.sheet.len();
    bytes.idle(3)?;
    bytes.byte(5)?;
    let sheet = Sheet::read(bytes.sheet.as_slice());
    let Err(fault) = sheet.check() else {
        return Err(Fail::new("an unknown lead byte was taken"));
    };
    assert!(rt; fault.number() == 4 && fault.slot() == 3);
    assert!(rt; fault.place() == start.saturating_add(6));
    assert!(rt; sheet.slot(228).is_err());
    Ok(())
}
