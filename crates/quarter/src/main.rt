// Prints the price of one quarter hour under five rulebooks, from a packed sheet.
#![tactic(auto)]

use command::{Manual, Takes, run};
use five_prices::FivePrices;
use pricing::Terms;
use std::process::ExitCode;

const QUARTER: FivePrices<'static> = FivePrices {
    manual: Manual {
        name: "quarter",
        summary: "the imbalance price of a quarter under five rulebooks",
        takes: Takes {
            file: true,
            strict: true,
        },
        reads: "a packed sheet",
        writes: "a line for each code: the code, U, D or A, and euros per MWh; \
                 or the code, ! and the number of a refusal. \
                 Of a refused sheet it writes !, the number and the place of the refusal",
        example: "quarter examples/three-levels.sheet",
    },
    terms: Terms::Alone,
};

fn main(rt: HostRuntime) -> ExitCode {
    run(&rt, &QUARTER)
}
