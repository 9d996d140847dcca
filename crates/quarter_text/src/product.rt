// The words that stand for the slots of manual products.
ghost use Rattle.std.specs.Prelude.{◌≡◌};
ghost use Rattle.quarter_text.specs.Products.{product_named, product_word};

use source::ManualProduct;

/// The word of a product, read and printed.
pub(crate) fn product_word(product: ManualProduct) -> &'static str
    ensures { result.now ≡ product_word product }
{
    match product {
        ManualProduct::Scheduled => "scheduled",
        ManualProduct::DirectUp => "up",
        ManualProduct::DirectDown => "down",
    }
}

/// The product whose word this is, if it is one's.
pub(crate) fn product_named(word: &[u8]) -> Option<ManualProduct>
    ensures { result ≡ product_named word.now }
{
    if word == product_word(ManualProduct::Scheduled).as_bytes() {
        Some(ManualProduct::Scheduled)
    } else if word == product_word(ManualProduct::DirectUp).as_bytes() {
        Some(ManualProduct::DirectUp)
    } else if word == product_word(ManualProduct::DirectDown).as_bytes() {
        Some(ManualProduct::DirectDown)
    } else {
        None
    }
}
