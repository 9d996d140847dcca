// The lines of a sheet's records.
use crate::bytes::{Bytes, Formed};
use lines::RecordLines;
use std::alloc::AllocError;
use std::test::Fail;

fn records_printed(bytes: &Bytes) -> Result<String, AllocError> {
    let lines = RecordLines {
        sheet: bytes.sheet.as_slice(),
    };
    format!(in *bytes.sheet.allocator(); "{lines}")
}

// Slot 227 is unreported: its record is the sheet's last byte.
#[test]
fn records_of_the_least_sheet(rt: HostRuntime) -> Result<(), Fail> {
    let least = Bytes::zeros(rt.alloc(), b"ISP1", 230)?;
    let lines = records_printed(&least)?;
    assert!(rt; lines.as_str().starts_with("0 6 0 -\n1 7 0 -\n"));
    assert!(rt; lines.as_str().ends_with("\n226 232 0 -\n227 233 0 -\n"));
    let longer = Bytes::zeros(rt.alloc(), b"ISP1", 231)?;
    let lines = records_printed(&longer)?;
    assert!(rt; lines.as_str().ends_with("\n227 233 0 -\n! 6 234\n"));
    Ok(())
}

#[test]
fn records_before_a_fault(rt: HostRuntime) -> Result<(), Fail> {
    let mut bytes = Bytes::head(rt.alloc(), -1, None)?;
    bytes.idle(1)?;
    bytes.priced(Formed::Down, 1, 64, -9_999_900)?;
    bytes.byte(5)?;
    assert_eq!(rt;
        records_printed(&bytes)?.as_str(),
        "0 6 1 00\n1 8 3 8001b7d8c409\n! 4 15\n"
    );
    let cut = Bytes::new(rt.alloc(), b"ISP")?;
    assert_eq!(rt; records_printed(&cut)?.as_str(), "! 1 3\n");
    Ok(())
}
