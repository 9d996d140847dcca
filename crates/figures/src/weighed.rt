// A slot's reading, with the weight of its number.
ghost use Rattle.std.specs.Prelude.{◌≤◌};
ghost use Rattle.source.specs.declared.product.TheConstants.{CYCLES};

use source::Reading;

#[derive(Clone, Copy)]
pub(crate) struct Weighed {
    pub(crate) weight: u64,
    pub(crate) reading: Reading,
    ghost light: { weight ≤ CYCLES },
}
