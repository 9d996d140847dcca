// Items in their order, in memory that the caller lends.
ghost use Rattle.std.specs.Prelude.{◌≡◌, ◌≤◌, length, take};
ghost use Rattle.std.proofs.Props.{props};
ghost use Rattle.ladders.specs.Orders.{HasNumbersOnce, IsInOrder};

use crate::fault::LadderFault;
use crate::item::Item;
use crate::moves::{insert_at, place_of, rank_of, remove_at};

/// The items that stand, in their order from the front of the memory on.
#[derive(Drop)]
pub struct Ladder<'a, T: Item> {
    memory: &'a mut [T],
    count: usize,
    ghost within: { count ≤ length memory.now },
    ghost no_more_than_most: { count ≤ T.MOST },
    ghost in_order: { IsInOrder T.order (take count memory.now) } by { Prim.hlevel props },
    ghost numbers_once: { HasNumbersOnce T.order (take count memory.now) } by { Prim.hlevel props },
}

impl<'a, T: Item> Ladder<'a, T> {
    ghost use Rattle.ladders.specs.Ladders.{HasMemoryOf, IsSoundCall, KeepsTheRest, Leads, items_in, places_in};
    ghost use Rattle.ladders.specs.Lists.{adding_answer, after_adding, after_withdrawing, item_of, rank_of, stands, with_item, withdrawing_answer};
    ghost use Rattle.ladders.specs.Runs.{adding, withdrawing};
    ghost use Rattle.std.specs.List.{position};
    ghost use Rattle.std.specs.Prelude.{◌≡◌, ◌<◌, ◌==◌, [], false, length, min, slice_get, option_and_then, remove, Some, IfErr, IfSome};

    /// A ladder on which nothing stands. Its places are `T::MOST`, or fewer where the memory is shorter.
    #[tactic(auto, using(crate::proofs::EveryRun::none_yet))]
    pub fn new(memory: &'a mut [T]) -> Ladder<'a, T>
        ensures empty { items_in result ≡ [] }
        ensures memory_unchanged { result.memory.now ≡ memory.old }
        ensures has_memory { result.memory.ghost_name ≡ memory.entry.ghost_name }
        ensures run_begins { Leads T.order T.MOST (min T.MOST (length memory.old)) [] result }
    {
        Ladder { memory, count: 0 }
    }

    /// How many items stand.
    pub fn len(&self) -> usize
        ensures { result ≡ length (items_in self.now) }
    {
        self.items().len()
    }

    /// The items that stand, the first in front.
    pub fn items(&self) -> &[T]
        ensures { result.now ≡ items_in self.now }
    {
        &self.memory[..self.count]
    }

    /// The item at a rank, which is how many stand before it; none past the last.
    pub fn at(&self, rank: usize) -> Option<T>
        ensures { result ≡ slice_get (items_in self.now) rank }
    {
        self.items().get(rank).copied()
    }

    /// Whether an item of the number stands.
    #[tactic(auto, using(crate::proofs::Found::placed_where_found))]
    pub fn stands(&self, number: u16) -> bool
        ensures { result ≡ stands T.order number (items_in self.now) }
    {
        self.place_of(number).is_some()
    }

    /// Puts an item in its place, and answers its rank. Refused with 18 where an item of its number stands, then with 17
    /// where as many stand as there are places.
    pub fn add(&mut self, item: T) -> Result<usize, LadderFault>
        ensures answers { result ≡ adding_answer T.order (places_in T.MOST self.old) item (items_in self.old) }
        ensures stands_then { items_in self.new ≡ after_adding T.order item result (items_in self.old) }
        ensures rest_kept { KeepsTheRest self.old self.new }
        ensures refused_unchanged { IfErr result (λ fault. self.new ≡ self.old) }
        ensures has_memory { HasMemoryOf self.old self.new }
        ensures places_kept { places_in T.MOST self.new ≡ places_in T.MOST self.old }
        ensures sound { IsSoundCall T.order T.MOST (adding item result) self.old self.new }
    {
        self.insert(item)
    }

    /// Takes the item of the number away, and answers it. Refused with 19 where none stands.
    #[tactic(auto, using(crate::proofs::EveryRun::sound_withdrawing))]
    pub fn withdraw(&mut self, number: u16) -> Result<T, LadderFault>
        ensures answers { result ≡ withdrawing_answer T.order number (items_in self.old) }
        ensures stands_then { items_in self.new ≡ after_withdrawing T.order number result (items_in self.old) }
        ensures rest_kept { KeepsTheRest self.old self.new }
        ensures refused_unchanged { IfErr result (λ fault. self.new ≡ self.old) }
        ensures has_memory { HasMemoryOf self.old self.new }
        ensures places_kept { places_in T.MOST self.new ≡ places_in T.MOST self.old }
        ensures sound { IsSoundCall T.order T.MOST (withdrawing number result) self.old self.new }
    {
        self.remove(number)
    }

    // What `add` does; what it promises of every run follows.
    fn insert(&mut self, item: T) -> Result<usize, LadderFault>
        ensures answers { result ≡ adding_answer T.order (places_in T.MOST self.old) item (items_in self.old) }
        ensures stands_then { items_in self.new ≡ after_adding T.order item result (items_in self.old) }
        ensures rest_kept { KeepsTheRest self.old self.new }
        ensures refused_unchanged { IfErr result (λ fault. self.new ≡ self.old) }
        ensures has_memory { HasMemoryOf self.old self.new }
        ensures places_kept { places_in T.MOST self.new ≡ places_in T.MOST self.old }
    {
        let number = item.number();
        if self.stands(number) {
            return Err(LadderFault::Standing { number });
        }
        let count = self.count;
        if count == T::MOST || count == self.memory.len() {
            return Err(LadderFault::Full { count });
        }
        Ok(self.put(item))
    }

    // What `withdraw` does.
    #[tactic(auto, using(crate::proofs::Ordered::without_found))]
    fn remove(&mut self, number: u16) -> Result<T, LadderFault>
        ensures answers { result ≡ withdrawing_answer T.order number (items_in self.old) }
        ensures stands_then { items_in self.new ≡ after_withdrawing T.order number result (items_in self.old) }
        ensures rest_kept { KeepsTheRest self.old self.new }
        ensures refused_unchanged { IfErr result (λ fault. self.new ≡ self.old) }
        ensures has_memory { HasMemoryOf self.old self.new }
        ensures places_kept { places_in T.MOST self.new ≡ places_in T.MOST self.old }
    {
        let Some(place) = self.place_of(number) else {
            return Err(LadderFault::NotStanding { number });
        };
        Ok(self.take_out(place))
    }

    // Where the item of the number stands.
    #[tactic(auto, using(crate::proofs::Found::found_at_place))]
    fn place_of(&self, number: u16) -> Option<usize>
        ensures first { result ≡ position (λ y. T.order.number y == number) (items_in self.now) }
        ensures within { IfSome result (λ k. k < length (items_in self.now)) }
        ensures finds { item_of T.order number (items_in self.now) ≡ option_and_then (λ k. slice_get (items_in self.now) k) result }
    {
        place_of(self.items(), number)
    }

    // Puts an item of a new number in its place, for which there is room, and answers its rank.
    fn put(&mut self, item: T) -> usize
        requires new_number { stands T.order (T.order.number item) (items_in self.old) ≡ false }
        requires room { length (items_in self.old) < places_in T.MOST self.old }
        ensures ranks { result ≡ rank_of T.order item (items_in self.old) }
        ensures stands_then { items_in self.new ≡ with_item T.order item (items_in self.old) }
        ensures rest_kept { KeepsTheRest self.old self.new }
        ensures has_memory { HasMemoryOf self.old self.new }
        ensures places_kept { places_in T.MOST self.new ≡ places_in T.MOST self.old }
    {
        let rank = rank_of(self.items(), item);
        let count = self.count;
        // Those before the rank stand in order all the while.
        self.count = rank;
        insert_at(self.memory, count, rank, item);
        self.count = count + 1;
        rank
    }

    // Takes the item at a place out, and answers it.
    fn take_out(&mut self, place: usize) -> T
        requires within { place < length (items_in self.old) }
        ensures item { Some result ≡ slice_get (items_in self.old) place }
        ensures stands_then { items_in self.new ≡ remove (items_in self.old) place }
        ensures rest_kept { KeepsTheRest self.old self.new }
        ensures has_memory { HasMemoryOf self.old self.new }
        ensures places_kept { places_in T.MOST self.new ≡ places_in T.MOST self.old }
    {
        let item = self.memory[place];
        let count = self.count;
        self.count = place;
        remove_at(self.memory, count, place);
        self.count = count - 1;
        item
    }
}
