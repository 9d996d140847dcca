// Answers in plain numbers.

/// A quote: its direction (1 up, 2 down, 3 the avoided activation) and cents per MWh. A refused one has the
/// refusal's number and place, and direction 0.
#[repr(C)]
#[derive(Clone, Copy)]
pub struct PlainQuote {
    pub refusal: u16,
    pub direction: u16,
    pub place: usize,
    pub cents: i64,
}

/// The quotes under the five rulebooks, in the order of their codes: 1 to 5, or with the incentive component 11 to 15.
#[repr(C)]
#[derive(Clone, Copy)]
pub struct PlainQuarter {
    pub weighted_average: PlainQuote,
    pub combined_automatic: PlainQuote,
    pub combined_all: PlainQuote,
    pub max_min: PlainQuote,
    pub finnish: PlainQuote,
}

/// Whether a book was started, with the refusal of its counts, and how many quarters have a price.
#[repr(C)]
#[derive(Clone, Copy)]
pub struct PlainDay {
    pub started: bool,
    pub refusal: u16,
    pub place: usize,
    pub priced: usize,
}

/// A bid on a ladder: cents per MWh, kW and its number.
#[repr(C)]
#[derive(Clone, Copy)]
pub struct PlainBid {
    pub cents: i32,
    pub kw: u32,
    pub number: u16,
}

/// How many bids were added to a ladder, and how many of them withdrawn.
#[repr(C)]
#[derive(Clone, Copy)]
pub struct PlainLadder {
    pub added: usize,
    pub withdrawn: usize,
}
