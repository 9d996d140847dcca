// A packed sheet as a price source.
ghost use Rattle.std.specs.Prelude.{◌≡◌, ◌≤◌, None, Ok, Err, length, replicate};
ghost use Rattle.sheet.specs.Laws.{Placed, Silent};
ghost use Rattle.sheet.specs.declared.length.TheConstants.{SHEET_BYTES};
ghost use Rattle.sheet.specs.Sheets.{fault_of_slots, first_fault, sheet_avoided, sheet_meaning, sheet_net, sheet_slots, slots_from};

use crate::fault::SheetFault;
use crate::head::Head;
use crate::reader::Reader;
use source::{NoSuchSlot, PriceSource, SLOTS, Slot};
use units::{Price, ZoneNet};

/// A sheet of any bytes, with what they tell and their first fault.
#[derive(Drop)]
pub struct Sheet<'a> {
    bytes: &'a [u8],
    slots: [Slot; SLOTS],
    zone_net: ZoneNet,
    avoided: Option<Price>,
    checked: Result<(), SheetFault>,
    ghost tells: { slots ≡ sheet_slots bytes.now },
    ghost nets: { zone_net ≡ sheet_net bytes.now },
    ghost avoids: { avoided ≡ sheet_avoided bytes.now },
    ghost refuses: { checked ≡ first_fault bytes.now },
}

// Tells the slots by the records after the head, up to the first fault; from there on they stay unreported.
#[tactic(auto, using(crate::proofs::Telling::all_filled, crate::proofs::Telling::all_left, crate::proofs::Telling::sheet_told))]
fn tell(bytes: &[u8], head: Head, slots: &mut [Slot]) -> Result<(), SheetFault>
    requires inside { head.end ≤ length bytes.now }
    requires unreported { slots.old ≡ replicate SLOTS None }
    ensures tells { slots.new ≡ (slots_from bytes.now head.end).0 }
    ensures refuses { result ≡ fault_of_slots bytes.now (slots_from bytes.now head.end).1 }
{
    let mut slot = 0;
    for record in Reader::after(bytes, head) {
        slots[slot] = record?.slot();
        slot += 1;
    }
    Ok(())
}

impl<'a> Sheet<'a> {
    /// The sheet of any bytes, decoded once.
    #[tactic(auto, unfolding(crate::specs::Sheets::sheet_slots, crate::specs::Sheets::sheet_net, crate::specs::Sheets::sheet_avoided, crate::specs::Sheets::first_fault))]
    pub fn read(bytes: &'a [u8]) -> Sheet<'a>
        ensures { result.bytes.now ≡ bytes.now }
    {
        let mut slots = [None; SLOTS];
        let head = match Head::read(bytes) {
            Ok(head) => head,
            Err(fault) => {
                return Sheet {
                    bytes,
                    slots,
                    zone_net: ZoneNet::zero(),
                    avoided: None,
                    checked: Err(fault),
                };
            }
        };
        let checked = tell(bytes, head, &mut slots);
        Sheet {
            bytes,
            slots,
            zone_net: head.zone_net,
            avoided: head.avoided,
            checked,
        }
    }

    /// The first fault from the front of the sheet, or that there is none.
    #[tactic(auto, using(crate::proofs::Firsts::placed, crate::proofs::Firsts::silent, crate::proofs::FirstBytes::no_longer))]
    pub fn check(&self) -> Result<(), SheetFault>
        ensures first { result ≡ first_fault self.now.bytes.now }
        ensures placed { (f : SheetFault) → result ≡ Err f → Placed self.now.bytes.now f }
        ensures silent { (f : SheetFault) → result ≡ Err f → Silent self.now.bytes.now f }
        ensures no_longer_than_a_sheet { result ≡ Ok tt → length self.now.bytes.now ≤ SHEET_BYTES }
    {
        self.checked
    }
}

impl PriceSource for Sheet<'_> {
    ghost means = { λ s. sheet_meaning s.bytes.now };

    fn slot(&self, slot: usize) -> Result<Slot, NoSuchSlot> {
        self.slots.get(slot).copied().ok_or(NoSuchSlot { slot })
    }

    fn zone_net(&self) -> ZoneNet {
        self.zone_net
    }

    fn avoided(&self) -> Option<Price> {
        self.avoided
    }
}
