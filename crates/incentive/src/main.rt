// Prints the price of one quarter hour with the incentive component over five rulebooks, from a packed sheet.
#![tactic(auto)]

use command::{Manual, Takes, run};
use five_prices::FivePrices;
use pricing::Terms;
use std::process::ExitCode;

const INCENTIVE: FivePrices<'static> = FivePrices {
    manual: Manual {
        name: "incentive",
        summary: "the imbalance price of a quarter with the incentive component over five rulebooks",
        takes: Takes {
            file: true,
            strict: true,
        },
        reads: "a packed sheet",
        writes: "a line for each code, 11 to 15, ten above that of the rulebook below: \
                 the code, U, D or A, and euros per MWh; or the code, ! and the number of a refusal. \
                 Of a refused sheet it writes !, the number and the place of the refusal",
        example: "incentive examples/north-lifted.sheet",
    },
    terms: Terms::WithIncentive,
};

fn main(rt: HostRuntime) -> ExitCode {
    run(&rt, &INCENTIVE)
}
