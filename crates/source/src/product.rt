// The balancing product of a slot, by its number, and the slot's weight.
ghost use Rattle.std.specs.Prelude.{◌≡◌, ℕ, Ok};
ghost use Rattle.source.specs.Products.{SlotNumbers, manual_slot, product_of, weight, weight_of_product};
ghost use Rattle.source.specs.declared.product.Product.TheVariants.{Manual};

use crate::slot::NoSuchSlot;

/// The automatic cycles of a quarter, slots 0 to 224.
pub const CYCLES: usize = 225;

/// The slot of scheduled manual activation.
pub const SCHEDULED: usize = 225;

/// The slot of direct manual activation up.
pub const DIRECT_UP: usize = 226;

/// The slot of direct manual activation down.
pub const DIRECT_DOWN: usize = 227;

/// What is activated by hand, for the whole quarter; each has a slot of its own.
#[derive(Clone, Copy, PartialEq, Eq)]
pub enum ManualProduct {
    Scheduled,
    DirectUp,
    DirectDown,
}

/// What a slot stands for: an automatic cycle of 4 s, or a manual product.
#[derive(Clone, Copy, PartialEq, Eq)]
pub enum Product {
    Automatic,
    Manual(ManualProduct),
}

impl TryFrom<usize> for Product {
    type Error = NoSuchSlot;

    ghost try_from_gives = { λ slot r. r ≡ product_of slot };

    fn try_from(slot: usize) -> Result<Product, NoSuchSlot> {
        match slot {
            0..CYCLES => Ok(Product::Automatic),
            SCHEDULED => Ok(Product::Manual(ManualProduct::Scheduled)),
            DIRECT_UP => Ok(Product::Manual(ManualProduct::DirectUp)),
            DIRECT_DOWN => Ok(Product::Manual(ManualProduct::DirectDown)),
            _ => Err(NoSuchSlot { slot }),
        }
    }
}

impl ManualProduct {
    /// The slot of the product: the only one that stands for it.
    pub fn slot(self) -> usize
        ensures slot { result ≡ manual_slot self }
        ensures stands_for_it { product_of result ≡ Ok (Manual self) }
        ensures no_other { (k : ℕ) → product_of k ≡ Ok (Manual self) → k ≡ result }
    {
        match self {
            ManualProduct::Scheduled => SCHEDULED,
            ManualProduct::DirectUp => DIRECT_UP,
            ManualProduct::DirectDown => DIRECT_DOWN,
        }
    }
}

impl Product {
    /// The weight of its slots against one cycle: a manual slot weighs as much as all cycles.
    pub fn weight(self) -> u64
        ensures { result ≡ weight_of_product self }
    {
        match self {
            Product::Automatic => 1,
            Product::Manual(_) => CYCLES as u64,
        }
    }
}

/// The weight of a slot against one cycle; no slot stands above 227.
pub fn weight_of(slot: usize) -> u64
    ensures weight { result ≡ weight slot }
    ensures numbers { SlotNumbers }
{
    Product::try_from(slot).map_or(0, |product| product.weight())
}
