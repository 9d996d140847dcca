// The head of a sheet.
ghost use Rattle.std.specs.Prelude.{◌≡◌, ◌≤◌, length, IfOk, OnOk};
ghost use Rattle.sheet.specs.Heads.{opens, opening, front, avoided_at, head_of};

use crate::fault::{HEAD, SheetFault, Spot};
use crate::part::Part;
use units::{Price, ZoneNet};

/// The bytes that open every sheet.
pub const OPENING: &[u8; 4] = b"ISP1";

/// What stands before the slots, and the place of the first record.
#[derive(Clone, Copy)]
pub struct Head {
    pub zone_net: ZoneNet,
    pub avoided: Option<Price>,
    pub end: usize,
}

// The head's bytes go by the place in the sheet.
const FRONT: Spot = Spot {
    place: 0,
    slot: HEAD,
};

// Byte by byte, so that the first wrong or missing one is found.
fn check_opening(sheet: &[u8]) -> Result<(), SheetFault>
    ensures checks { result ≡ opens 0 opening sheet.now }
    ensures long { OnOk result (4 ≤ length sheet.now) }
{
    for (place, wanted) in OPENING.iter().enumerate() {
        let Some(byte) = sheet.get(place) else {
            return Err(SheetFault::Ends { place });
        };
        if *byte != *wanted {
            return Err(SheetFault::Opening { place });
        }
    }
    Ok(())
}

// The avoided value by the flag at `at`, and the place after it.
#[tactic(auto, unfolding(crate::specs::Heads::avoided_at))]
fn read_avoided(sheet: &Part<'_>, at: usize) -> Result<(Option<Price>, usize), SheetFault>
    requires { sheet.now.start ≡ front }
    ensures reads { result ≡ avoided_at sheet.now.bytes.now at }
    ensures within { IfOk result (λ p. p.1 ≤ length sheet.now.bytes.now) }
{
    match sheet.bytes.get(at) {
        None => Err(SheetFault::Ends {
            place: sheet.bytes.len(),
        }),
        Some(0) => Ok((None, at + 1)),
        Some(1) => {
            let (price, end) = sheet.quantity(at + 1)?;
            Ok((Some(price), end))
        }
        Some(_) => Err(SheetFault::Flag { place: at }),
    }
}

impl Head {
    /// The head of a sheet, or the first fault in it.
    #[tactic(auto, unfolding(crate::specs::Heads::head_of))]
    pub fn read(sheet: &[u8]) -> Result<Head, SheetFault>
        ensures reads { result ≡ head_of sheet.now }
        ensures within { IfOk result (λ h. h.end ≤ length sheet.now) }
    {
        check_opening(sheet)?;
        let part = Part {
            bytes: sheet,
            start: FRONT,
        };
        let (zone_net, at) = part.quantity(OPENING.len())?;
        let (avoided, end) = read_avoided(&part, at)?;
        Ok(Head {
            zone_net,
            avoided,
            end,
        })
    }
}
