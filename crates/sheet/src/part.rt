// A part of a sheet, and the numbers in it.
ghost use Rattle.std.specs.Prelude.{◌≡◌, ◌+◌, ◌^◌, ◌<◌, ◌≤◌, length, IfOk};
ghost use Rattle.sheet.specs.Numbers.{quantity};

use crate::fault::{NumberFault, Spot};
use crate::number::{GroupsFault, read_groups, unfold_sign};
use units::Quantity;

/// Bytes of a sheet, and the spot at which they begin.
#[derive(Clone, Copy)]
pub(crate) struct Part<'a> {
    pub(crate) bytes: &'a [u8],
    pub(crate) start: Spot,
    ghost addressed: { start.place + length bytes.now < 2 ^ 64 },
}

impl Part<'_> {
    // The number that begins at the byte `from`, and where it ends. A call that is not inlined stores the part and loads
    // it again.
    #[inline(always)]
    #[tactic(auto, unfolding(crate::specs::Numbers::quantity))]
    pub(crate) fn quantity<Q: Quantity>(&self, from: usize) -> Result<(Q, usize), NumberFault>
        requires { from ≤ length self.now.bytes.now }
        ensures reads { result ≡ quantity Q.Quantity.made self.now.start self.now.bytes.now from }
        ensures within { IfOk result (λ p. p.1 ≤ length self.now.bytes.now) }
    {
        let spot = Spot {
            place: self.start.place + from,
            slot: self.start.slot,
        };
        match read_groups(&self.bytes[from..]) {
            Ok((stored, size)) => match Q::new(unfold_sign(stored)) {
                Ok(quantity) => Ok((quantity, from + size)),
                Err(_) => Err(NumberFault::Bounds(spot)),
            },
            Err(GroupsFault::Ends) => Err(NumberFault::Ends(Spot {
                place: self.start.place + self.bytes.len(),
                slot: self.start.slot,
            })),
            Err(GroupsFault::Form) => Err(NumberFault::Form(spot)),
        }
    }
}
