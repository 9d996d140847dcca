// Why a ladder refuses a call.
ghost use Rattle.ladders.specs.Refusals.{refusal_number, refusal_place};

use units::Refusal;

#[derive(Clone, Copy, PartialEq, Eq, Debug)]
pub enum LadderFault {
    /// As many items stand as may; their count.
    Full { count: usize },
    /// An item of this number stands already.
    Standing { number: u16 },
    /// No item of this number stands.
    NotStanding { number: u16 },
}

impl Refusal for LadderFault {
    ghost number = { refusal_number };

    ghost place = { refusal_place };

    fn number(self) -> u16 {
        match self {
            LadderFault::Full { .. } => 17,
            LadderFault::Standing { .. } => 18,
            LadderFault::NotStanding { .. } => 19,
        }
    }

    fn place(self) -> usize {
        match self {
            LadderFault::Full { count } => count,
            LadderFault::Standing { number } | LadderFault::NotStanding { number } => {
                usize::from(number)
            }
        }
    }
}
