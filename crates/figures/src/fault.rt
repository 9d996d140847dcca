// Why a source gives no figures.
ghost use Rattle.figures.specs.Refusals.{unreported_number, unreported_place};

use units::Refusal;

/// The first slot that is not reported.
#[derive(Clone, Copy, PartialEq, Eq, Debug)]
pub struct UnreportedSlot {
    pub slot: usize,
}

impl Refusal for UnreportedSlot {
    ghost number = { unreported_number };

    ghost place = { unreported_place };

    fn number(self) -> u16 {
        7
    }

    fn place(self) -> usize {
        self.slot
    }
}
