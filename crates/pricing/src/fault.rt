// Why a quarter has no quote.
ghost use Rattle.std.specs.Prelude.{◌≡◌};
ghost use Rattle.pricing.specs.Refusals.{quote_number, quote_place};
ghost use Rattle.pricing.specs.declared.fault.QuoteFault.TheVariants.{Unreported};

use figures::UnreportedSlot;
use source::SLOTS;
use units::Refusal;

/// The refusal of a quote.
#[derive(Clone, Copy, Debug)]
pub enum QuoteFault {
    /// A slot is not reported.
    Unreported(UnreportedSlot),
    /// The result is avoided, and there is no avoided value.
    NoAvoidedValue,
}

impl Refusal for QuoteFault {
    ghost number = { quote_number };

    ghost place = { quote_place };

    fn number(self) -> u16 {
        match self {
            QuoteFault::Unreported(fault) => fault.number(),
            QuoteFault::NoAvoidedValue => 8,
        }
    }

    fn place(self) -> usize {
        match self {
            QuoteFault::Unreported(fault) => fault.place(),
            QuoteFault::NoAvoidedValue => SLOTS,
        }
    }
}

impl From<UnreportedSlot> for QuoteFault {
    ghost from_gives = { λ e r. r ≡ Unreported e };

    fn from(slot: UnreportedSlot) -> QuoteFault {
        QuoteFault::Unreported(slot)
    }
}
