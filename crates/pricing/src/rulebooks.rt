// The five rulebooks: four Nordic design options and the Finnish edition.
ghost use Rattle.pricing.specs.declared.ruling.Net.TheVariants.{Local, Zone};
ghost use Rattle.pricing.specs.Rulings.{combined_all, combined_automatic, finnish, max_min, weighted_average, mean_price, automatic_or_manual, mean_or_manual, extreme_counting, finnish_price};
ghost use Rattle.pricing.specs.laws.Lawful.{rulebook_keeps, mean_lawful, automatic_lawful, combined_lawful, extreme_lawful, finnish_lawful};

use crate::rulebook::Rulebook;
use crate::ruling::{DirectedPrice, Net, Ruling};
use figures::{Figures, extreme_of};
use source::Direction;

/// Code 1: the volume-weighted average.
#[derive(Clone, Copy)]
pub struct WeightedAverage;

impl Rulebook for WeightedAverage {
    const CODE: u16 = 1;

    const NET: Net = Net::Local;

    ghost CODE = { 1 };

    ghost NET = { Local };

    ghost ruling = { λ r. weighted_average };

    fn decide(&self, figures: &Figures) -> Ruling {
        let direction = Direction::of_net(Self::NET.of(figures))?;
        let price = figures.weighted_mean(direction)?;
        Some(DirectedPrice { direction, price })
    }

    ghost keeps_laws = { λ r. rulebook_keeps Local mean_price mean_lawful };
}

/// Code 2: the first combined option, the extreme of the automatic mean and the counting manual prices.
#[derive(Clone, Copy)]
pub struct CombinedAutomatic;

impl Rulebook for CombinedAutomatic {
    const CODE: u16 = 2;

    const NET: Net = Net::Local;

    ghost CODE = { 2 };

    ghost NET = { Local };

    ghost ruling = { λ r. combined_automatic };

    fn decide(&self, figures: &Figures) -> Ruling {
        let direction = Direction::of_net(Self::NET.of(figures))?;
        let manual = figures.counting_manual(direction);
        let price = extreme_of(direction, figures.automatic_mean(direction), manual)?;
        Some(DirectedPrice { direction, price })
    }

    ghost keeps_laws = { λ r. rulebook_keeps Local automatic_or_manual automatic_lawful };
}

/// Code 3: the second combined option, the extreme of the weighted mean and the counting manual prices.
#[derive(Clone, Copy)]
pub struct CombinedAll;

impl Rulebook for CombinedAll {
    const CODE: u16 = 3;

    const NET: Net = Net::Local;

    ghost CODE = { 3 };

    ghost NET = { Local };

    ghost ruling = { λ r. combined_all };

    fn decide(&self, figures: &Figures) -> Ruling {
        let direction = Direction::of_net(Self::NET.of(figures))?;
        let manual = figures.counting_manual(direction);
        let price = extreme_of(direction, figures.weighted_mean(direction), manual)?;
        Some(DirectedPrice { direction, price })
    }

    ghost keeps_laws = { λ r. rulebook_keeps Local mean_or_manual combined_lawful };
}

/// Code 4: the extreme of all counting prices.
#[derive(Clone, Copy)]
pub struct MaxMin;

impl Rulebook for MaxMin {
    const CODE: u16 = 4;

    const NET: Net = Net::Local;

    ghost CODE = { 4 };

    ghost NET = { Local };

    ghost ruling = { λ r. max_min };

    fn decide(&self, figures: &Figures) -> Ruling {
        let direction = Direction::of_net(Self::NET.of(figures))?;
        let manual = figures.counting_manual(direction);
        let price = extreme_of(direction, figures.counting_cycles(direction), manual)?;
        Some(DirectedPrice { direction, price })
    }

    ghost keeps_laws = { λ r. rulebook_keeps Local extreme_counting extreme_lawful };
}

/// Code 5: the Finnish edition, by the zone's net.
#[derive(Clone, Copy)]
pub struct Finnish;

impl Rulebook for Finnish {
    const CODE: u16 = 5;

    const NET: Net = Net::Zone;

    ghost CODE = { 5 };

    ghost NET = { Zone };

    ghost ruling = { λ r. finnish };

    fn decide(&self, figures: &Figures) -> Ruling {
        match Direction::of_net(Self::NET.of(figures)) {
            Some(direction) if figures.manual_counts(direction) => {
                let mean = figures.weighted_mean(direction)?;
                Some(DirectedPrice {
                    direction,
                    price: mean,
                })
            }
            Some(direction) => {
                let manual = figures.formed_manual(direction);
                let extreme = extreme_of(direction, figures.automatic_mean(direction), manual)?;
                Some(DirectedPrice {
                    direction,
                    price: extreme,
                })
            }
            None => None,
        }
    }

    ghost keeps_laws = { λ r. rulebook_keeps Zone finnish_price finnish_lawful };
}
