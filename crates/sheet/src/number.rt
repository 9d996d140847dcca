// The groups of a number, of seven bits each, and its sign. 128 is 2 ^ 7, 16384 is 2 ^ 14 and 2097152 is 2 ^ 21.
ghost use Rattle.std.specs.Prelude.{◌≡◌, ◌^◌, ◌<◌, ◌≤◌, length, IfOk};
ghost use Rattle.sheet.specs.Groups.{groups, last, unfolded};

#[derive(Clone, Copy)]
pub(crate) enum GroupsFault {
    Ends,
    Form,
}

// Groups that end at the byte `byte`: 0 would end a number that has a shorter form.
fn ended(byte: u8, joined: u32, size: usize) -> Result<(u32, usize), GroupsFault>
    ensures { result ≡ last byte joined size }
{
    if byte == 0 {
        return Err(GroupsFault::Form);
    }
    Ok((joined, size))
}

// The groups at the front of the bytes, joined, and how many bytes they take.
pub(crate) fn read_groups(s: &[u8]) -> Result<(u32, usize), GroupsFault>
    ensures reads { result ≡ groups s.now }
    ensures fits { IfOk result (λ p. (p.0 < 2 ^ 28) × (p.1 ≤ length s.now)) }
{
    match s {
        [a, ..] if *a < 128 => Ok((u32::from(*a), 1)),
        [a, b, ..] if *b < 128 => ended(*b, u32::from(*a) - 128 + 128 * u32::from(*b), 2),
        [a, b, c, ..] if *c < 128 => {
            let low = u32::from(*a) - 128 + 128 * (u32::from(*b) - 128);
            ended(*c, low + 16384 * u32::from(*c), 3)
        }
        [a, b, c, d, ..] if *d < 128 => {
            let low = u32::from(*a) - 128 + 128 * (u32::from(*b) - 128);
            ended(
                *d,
                low + 16384 * (u32::from(*c) - 128) + 2097152 * u32::from(*d),
                4,
            )
        }
        [_, _, _, _, ..] => Err(GroupsFault::Form),
        _ => Err(GroupsFault::Ends),
    }
}

pub(crate) fn unfold_sign(u: u32) -> i64
    ensures { result ≡ unfolded u }
{
    if u % 2 == 0 {
        i64::from(u / 2)
    } else {
        -i64::from(u / 2) - 1
    }
}
