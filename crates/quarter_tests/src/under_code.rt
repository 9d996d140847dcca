// A rulebook of anybody's under a code of its own.
ghost use Rattle.std.specs.Prelude.{◌≡◌};

use figures::Figures;
use pricing::{Net, Rulebook, Ruling};

/// What another rulebook decides, under the code `N`.
#[derive(Clone, Copy, Drop)]
pub struct UnderCode<R, const N: u16> {
    pub rulebook: R,
}

impl<R: Rulebook, const N: u16> Rulebook for UnderCode<R, N> {
    const CODE: u16 = N;

    const NET: Net = R::NET;

    ghost CODE = { N };

    ghost NET = { R.Rulebook.NET };

    ghost ruling = { λ r. R.Rulebook.ruling r.rulebook };

    fn decide(&self, figures: &Figures) -> Ruling {
        self.rulebook.decide(figures)
    }

    ghost keeps_laws = { λ r. R.Rulebook.keeps_laws r.rulebook };
}
