// A rulebook: from the figures of a quarter to its ruling.
ghost use Rattle.std.specs.Prelude.{◌≡◌, ℕ};
ghost use Rattle.figures.specs.declared.quarter_figures.Figures.{Figures};
ghost use Rattle.pricing.specs.declared.ruling.Net.{Net};
ghost use Rattle.pricing.specs.FourLaws.{KeepsLaws};
ghost use Rattle.pricing.specs.Outcomes.{Outcome, outcome_of};

use crate::ruling::{Net, Ruling};
use figures::Figures;

/// Whatever means one result for each set of figures and keeps the four laws, under a fixed code and by a fixed net.
/// What it means belongs to the value, so that a rulebook may hold a price or another rulebook.
pub trait Rulebook {
    /// The number that names the rulebook.
    const CODE: u16;

    /// The net whose sign decides the direction.
    const NET: Net;

    ghost CODE: { ℕ };

    ghost NET: { Net };

    ghost ruling: { Self → Figures → Outcome };

    /// The result for the figures.
    fn decide(&self, figures: &Figures) -> Ruling
        ensures { outcome_of result ≡ ruling self.now figures.now };

    ghost keeps_laws: { (r : Self) (f : Figures) → KeepsLaws NET f (ruling r f) };
}
