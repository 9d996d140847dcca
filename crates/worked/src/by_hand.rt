// What was worked by hand.
ghost use Rattle.worked.specs.Cases.{WorkedByHand};

/// The price of a quarter under each of the five rulebooks, in cents per MWh.
#[derive(Clone, Copy)]
pub struct FivePrices {
    pub weighted_average: i64,
    pub combined_automatic: i64,
    pub combined_all: i64,
    pub max_min: i64,
    pub finnish: i64,
}

/// Prices with the incentive component, in cents per MWh: of the quarter of three levels at three avoided values, of a
/// down quarter and of a balanced one.
#[derive(Clone, Copy)]
pub struct IncentivePrices {
    pub unchanged_by_346_66: i64,
    pub lifted_to_346_67: i64,
    pub lifted_to_500: i64,
    pub max_min_unchanged_by_500: i64,
    pub lifted_to_500_by_two_layers: i64,
    pub lowered_to_minus_5: i64,
    pub balanced: i64,
}

/// Prices in cents per MWh, payments in cents, and the bytes and the refusal of stored numbers.
#[derive(Clone, Copy)]
pub struct WorkedFigures {
    pub three_levels: FivePrices,
    pub manual_activated_finnish: i64,
    pub manual_activated_down_finnish: i64,
    pub manual_formed_finnish: i64,
    pub manual_formed_weighted_average: i64,
    pub half_a_cent: i64,
    pub half_a_cent_below_zero: i64,
    pub balanced: i64,
    pub incentive: IncentivePrices,
    pub first_half_cent: i64,
    pub second_half_cent: i64,
    pub surplus: i64,
    pub deficit: i64,
    pub stored_0: [u8; 1],
    pub stored_minus_1: [u8; 1],
    pub stored_64: [u8; 2],
    pub not_shortest: u16,
}

/// The figures that were worked by hand: what the definitions give.
#[tactic(auto, using(crate::proofs::Worked::worked))]
pub fn figures_worked_by_hand() -> WorkedFigures
    ensures follow_from_the_definitions { WorkedByHand result }
{
    WorkedFigures {
        three_levels: FivePrices {
            weighted_average: 34_667,
            combined_automatic: 100_000,
            combined_all: 100_000,
            max_min: 100_000,
            finnish: 34_667,
        },
        manual_activated_finnish: 6_429,
        manual_activated_down_finnish: 1_571,
        manual_formed_finnish: 10_000,
        manual_formed_weighted_average: 5_000,
        half_a_cent: 1,
        half_a_cent_below_zero: -1,
        balanced: 700,
        incentive: IncentivePrices {
            unchanged_by_346_66: 34_667,
            lifted_to_346_67: 34_667,
            lifted_to_500: 50_000,
            max_min_unchanged_by_500: 100_000,
            lifted_to_500_by_two_layers: 50_000,
            lowered_to_minus_5: -500,
            balanced: 700,
        },
        first_half_cent: 1,
        second_half_cent: 0,
        surplus: 18_750,
        deficit: -175_000,
        stored_0: [0],
        stored_minus_1: [1],
        stored_64: [128, 1],
        not_shortest: 3,
    }
}
