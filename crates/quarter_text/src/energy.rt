// Energy over slots, as the power in each of them.
ghost use Rattle.std.specs.Prelude.{◌≡◌, ◌*◌, ◌-◌, ◌<◌, ◌≤◌};
ghost use Rattle.words.specs.Numerals.{number_of};
ghost use Rattle.words.specs.declared.decimal.TheConstants.{READ_AT_MOST};
ghost use Rattle.quarter_text.specs.Lines.{energy_fault, is_whole, power, whole_after, whole_up_to};

use crate::fault::{EnergyFault, Problem, WordFault, in_bounds};
use crate::range::Range;
use source::{CYCLES, SLOTS};
use units::{Demand, MOST_KW, Quantity};
use words::{Numeral, at_word};

/// The power of 1 kWh within a cycle of 4 s.
const KW_PER_KWH: u64 = 900;

/// A kW in W.
const W_PER_KW: u64 = 1_000;

// Whether so many kWh over slots of this weight in all come to whole kW.
fn is_whole(weight: u64, kwh: u64) -> bool
    requires { (1 ≤ weight) × (kwh ≤ READ_AT_MOST) }
    ensures { result ≡ is_whole weight kwh }
{
    kwh * KW_PER_KWH % weight == 0
}

// The greatest energy up to this one that comes to whole kW.
fn whole_up_to(weight: u64, most: u64) -> u64
    requires { (1 ≤ weight) × (most ≤ READ_AT_MOST) }
    ensures { result ≡ whole_up_to weight most }
{
    let mut kwh = most;
    while !is_whole(weight, kwh) {
        kwh -= 1;
    }
    kwh
}

// The least energy beyond this one, up to the most, that comes to whole kW.
#[tactic(auto, using(crate::proofs::Powers::passed_over))]
fn whole_after(weight: u64, kwh: u64, most: u64) -> Option<u64>
    requires { (1 ≤ weight) × (most ≤ READ_AT_MOST) }
    ensures { result ≡ whole_after weight kwh (most - kwh) }
{
    for past in kwh..most {
        if is_whole(weight, past + 1) {
            return Some(past + 1);
        }
    }
    None
}

fn energy_fault(range: Range, weight: u64, energy: Numeral) -> EnergyFault
    requires { (1 ≤ weight) × (weight ≤ SLOTS * CYCLES) }
    ensures { result ≡ energy_fault range weight (number_of energy) }
{
    let watts = energy.size * KW_PER_KWH * W_PER_KW;
    let most = u64::from(MOST_KW) * weight / KW_PER_KWH;
    EnergyFault {
        first: range.first,
        last: range.last,
        negative: energy.negative,
        watts: watts / weight,
        part_more: watts % weight != 0,
        below: whole_up_to(weight, energy.size.min(most)),
        above: whole_after(weight, energy.size, most),
    }
}

// Energy over these slots, as the demand in each of them.
pub(crate) fn power(word: usize, range: Range, energy: Numeral) -> Result<Demand, WordFault>
    requires { (range.first ≤ range.last) × (range.last < SLOTS) }
    ensures { result ≡ power word range (number_of energy) }
{
    let weight = range.weight();
    let size = energy.size * KW_PER_KWH;
    if size > u64::from(MOST_KW) * weight {
        let fault = energy_fault(range, weight, energy);
        return at_word(word, Problem::EnergyBounds(fault));
    }
    if !is_whole(weight, energy.size) {
        let fault = energy_fault(range, weight, energy);
        return at_word(word, Problem::NotWholeKw(fault));
    }
    let kw = Numeral {
        size: size / weight,
        negative: energy.negative,
    };
    in_bounds(word, Demand::new(kw.value()))
}
