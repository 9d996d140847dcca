// Places in a slice of items, and items put in and taken out.
ghost use Rattle.std.specs.Prelude.{◌≡◌, ◌+◌, ◌-◌, ◌<◌, ◌≤◌, ◌==◌, ◌++◌, length, take, drop, insert, remove, IfSome};
ghost use Rattle.std.specs.List.{position};
ghost use Rattle.ladders.specs.Lists.{rank_of};
ghost use Rattle.ladders.specs.Orders.{IsInOrder};
ghost use Rattle.ladders.specs.Steps.{IsByNumber};

use crate::item::Item;

/// How many items are turned at once: a run of more than 2,048 bytes would be moved down item by item.
const AT_ONCE: usize = 128;

/// How many of the items stand before this one.
pub(crate) fn rank_of<T: Item>(items: &[T], item: T) -> usize
    requires in_order { IsInOrder T.order items.now }
    ensures counts { result ≡ rank_of T.order item items.now }
    ensures within { result ≤ length items.now }
{
    items.partition_point(|other| other.is_before(item))
}

/// Where the item of the number stands.
pub(crate) fn place_of<T: Item>(items: &[T], number: u16) -> Option<usize>
    requires in_order { IsInOrder T.order items.now }
    ensures first { result ≡ position (λ y. T.order.number y == number) items.now }
    ensures within { IfSome result (λ k. k < length items.now) }
{
    if T::BY_NUMBER {
        return searched(items, number);
    }
    items.iter().position(|item| item.number() == number)
}

// The same, where the numbers rise, by halves.
fn searched<T: Item>(items: &[T], number: u16) -> Option<usize>
    requires by_number { IsByNumber T.order items.now }
    ensures first { result ≡ position (λ y. T.order.number y == number) items.now }
{
    let place = items.partition_point(|item| item.number() < number);
    if place < items.len() && items[place].number() == number {
        return Some(place);
    }
    None
}

/// Puts the item at a place among the first `count`, and those from there on one place higher.
pub(crate) fn insert_at<T: Copy>(memory: &mut [T], count: usize, at: usize, item: T)
    requires room { count < length memory.old }
    requires within { at ≤ count }
    ensures { memory.new ≡ insert (take count memory.old) at item ++ drop (count + 1) memory.old }
{
    memory[count] = item;
    memory[at..count + 1].rotate_right(1);
}

/// Takes the item at a place out of the first `count`, and puts those behind it one place lower.
pub(crate) fn remove_at<T: Copy>(memory: &mut [T], count: usize, at: usize)
    requires room { count ≤ length memory.old }
    requires within { at < count }
    ensures { memory.new ≡ remove (take count memory.old) at ++ drop (count - 1) memory.old }
{
    let last = memory[count - 1];
    first_to_last(&mut memory[at..count]);
    memory[count - 1] = last;
}

/// Puts the first item behind the others.
fn first_to_last<T: Copy>(items: &mut [T])
    ensures { items.new ≡ drop 1 items.old ++ take 1 items.old }
{
    let mut place = 0;
    while 1 < items.len() - place {
        let part = AT_ONCE.min(items.len() - place);
        items[place..place + part].rotate_left(1);
        place += part - 1;
    }
}
