// Decimal numbers without a sign.
ghost use Rattle.std.specs.Prelude.{◌≡◌, ◌^◌, ◌<◌, ◌≤◌, IfSome, length, min, ◌==◌};
ghost use Rattle.std.specs.List.{position};
ghost use Rattle.std.specs.Option.{option_map};
ghost use Rattle.words.specs.Numerals.{CapNumber, digits, unsigned_numeral};
ghost use Rattle.words.specs.declared.decimal.TheConstants.{READ_AT_MOST};

/// Larger numbers are read as this one.
pub const READ_AT_MOST: u64 = 1_000_000_000_000;

/// The number that a word of digits writes; nothing where it has anything else, or is empty.
#[tactic(auto, using(crate::proofs::Capped::digit_more, crate::proofs::Capped::no_digit))]
pub fn digits(word: &[u8]) -> Option<u64>
    ensures reads { result ≡ option_map (min READ_AT_MOST) (digits word.now) }
    ensures bound { IfSome result (λ n. n ≤ READ_AT_MOST) }
    ensures number { CapNumber }
{
    if word.is_empty() {
        return None;
    }
    let mut number = 0;
    for byte in word {
        if !byte.is_ascii_digit() {
            return None;
        }
        number = (number * 10 + u64::from(*byte - b'0')).min(READ_AT_MOST);
    }
    Some(number)
}

/// The place of the first such byte, counted from 0, if there is one.
pub fn first_at(word: &[u8], wanted: u8) -> Option<usize>
    ensures place { result ≡ position (λ b. b == wanted) word.now }
    ensures within { IfSome result (λ k. k < length word.now) }
{
    word.iter().position(|byte| *byte == wanted)
}

fn power_of_ten(places: usize) -> u64
    requires { places ≤ 3 }
    ensures power { result ≡ 10 ^ places }
    ensures low { 1 ≤ result }
    ensures high { result ≤ 1000 }
{
    match places {
        0 => 1,
        1 => 10,
        2 => 100,
        _ => 1_000,
    }
}

// The number of a numeral without a sign, where the last of so many decimals is one.
pub(crate) fn unsigned_numeral(word: &[u8], places: usize) -> Option<u64>
    requires { places ≤ 3 }
    ensures reads { result ≡ option_map (min READ_AT_MOST) (unsigned_numeral places word.now) }
    ensures bound { IfSome result (λ n. n ≤ READ_AT_MOST) }
{
    let unit = power_of_ten(places);
    let Some(point) = first_at(word, b'.') else {
        return Some((digits(word)? * unit).min(READ_AT_MOST));
    };
    let whole = digits(&word[..point])?;
    let decimals = &word[point + 1..];
    if decimals.len() > places {
        return None;
    }
    let rest = digits(decimals)? * power_of_ten(places - decimals.len());
    Some((whole * unit + rest).min(READ_AT_MOST))
}
