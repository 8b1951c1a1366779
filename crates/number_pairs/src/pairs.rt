ghost use Rattle.std.specs.Prelude.{◌≡◌, ◌+◌, ◌<◌, ◌≤◌, [], true, false, IsOk, OnErr, OnOk, filter};
ghost use Rattle.std.specs.Prelude.{length, vec_capacity, vec_len};
ghost use Rattle.number_lists.specs.Rising.{with_number, without_number};
ghost use Rattle.number_lists.specs.Rising as numbers;
ghost use Rattle.number_pairs.specs.Keyed.{AreSorted, ChangesUnder, has_key, has_pair};
ghost use Rattle.number_pairs.specs.Keyed.{numbers_under, with_pair, without_pair};

use scm_text::OutOfMemory;
use std::alloc::Global;
use std::marker::Model;

/// A number under a key. Pairs are in order of their keys, and under one key of their numbers.
#[derive(Clone, Copy, PartialEq, Eq, PartialOrd, Ord)]
pub struct Pair {
    pub key: u64,
    pub number: u64,
}

/// Pairs in order, each once, with room. Contracts see the pairs, and for how many more there is
/// room.
#[derive(Drop)]
pub struct NumberPairs {
    list: Vec<Pair>,
}

impl Model for NumberPairs {
    ghost use Rattle.std.specs.Prelude.{◌-◌, vec_capacity, vec_len};
    ghost use Rattle.scm_text.specs.Roomed.{Roomed};
    ghost use Rattle.number_pairs.specs.declared.pairs.Pair.{Pair};
    ghost use Rattle.number_pairs.specs.Keyed.{AreSorted};

    ghost Value = { Roomed Pair };

    ghost view = { λ p.
        record { items = p.list.items; room = vec_capacity p.list - vec_len p.list } };

    ghost invariant = { λ p. AreSorted p.list.items };
}

/// The pairs with a key, which stand side by side.
fn run_of(pairs: &[Pair], key: u64) -> &[Pair]
    requires { AreSorted pairs.now }
    ensures { result.now ≡ filter (has_key key) pairs.now }
{
    let start = pairs.partition_point(|pair| pair.key < key);
    let rest = &pairs[start..];
    let end = rest.partition_point(|pair| pair.key <= key);
    &rest[..end]
}

/// Puts a pair into its place, unless it is there.
fn add_to(list: &mut Vec<Pair>, pair: Pair)
    requires rising { AreSorted list.old.items }
    requires room { has_pair list.old.items pair ≡ false
        → vec_len list.old < vec_capacity list.old }
    ensures items { list.new.items ≡ with_pair list.old.items pair }
    ensures rising { AreSorted list.new.items }
    ensures capacity { vec_capacity list.old ≤ vec_capacity list.new }
{
    if let Err(place) = list.as_slice().binary_search(&pair) {
        let _room = list.insert(place, pair);
    }
}

/// Takes a pair out.
fn drop_from(list: &mut Vec<Pair>, pair: Pair)
    requires rising { AreSorted list.old.items }
    ensures items { list.new.items ≡ without_pair list.old.items pair }
    ensures rising { AreSorted list.new.items }
    ensures capacity { vec_capacity list.old ≤ vec_capacity list.new }
{
    if let Ok(place) = list.as_slice().binary_search(&pair) {
        list.remove(place);
    }
}

impl NumberPairs {
    /// No pairs, which take no memory.
    pub fn new(alloc: Global) -> Self
        ensures { result ≡ record { items = []; room = 0 } }
    {
        NumberPairs {
            list: Vec::new(alloc),
        }
    }

    /// The pairs with a key. Their numbers rise.
    pub fn at(&self, key: u64) -> &[Pair]
        ensures pairs { result.now ≡ filter (has_key key) self.now.items }
        ensures rising { numbers.AreRising (numbers_under key self.now.items) }
    {
        run_of(self.list.as_slice(), key)
    }

    /// Makes room for so many pairs more. An `Err` changes nothing.
    pub fn reserve(&mut self, additional: usize) -> Result<(), OutOfMemory>
        ensures items { self.new.items ≡ self.old.items }
        ensures ok { OnOk result (additional ≤ self.new.room) }
        ensures err { OnErr result (self.new ≡ self.old) }
        ensures room { self.old.room ≤ self.new.room }
        ensures enough { additional ≤ self.old.room → IsOk result }
    {
        match self.list.reserve(additional) {
            Ok(()) => Ok(()),
            Err(_) => Err(OutOfMemory),
        }
    }

    /// Puts a pair into its place, unless it is there. It takes no memory.
    pub fn add(&mut self, pair: Pair)
        requires { has_pair self.old.items pair ≡ false → 1 ≤ self.old.room }
        ensures items { self.new.items ≡ with_pair self.old.items pair }
        ensures under { ChangesUnder pair.key self.old.items self.new.items
            (λ numbers. with_number numbers pair.number) }
        ensures room { self.old.room ≤ self.new.room + 1 }
        ensures held { length self.old.items + self.old.room
            ≤ length self.new.items + self.new.room }
    {
        add_to(&mut self.list, pair);
    }

    /// Takes a pair out, if it is there. That leaves room for one more.
    pub fn remove(&mut self, pair: Pair)
        ensures items { self.new.items ≡ without_pair self.old.items pair }
        ensures under { ChangesUnder pair.key self.old.items self.new.items
            (λ numbers. without_number numbers pair.number) }
        ensures room { self.old.room ≤ self.new.room }
        ensures freed { has_pair self.old.items pair ≡ true → self.old.room + 1 ≤ self.new.room }
    {
        drop_from(&mut self.list, pair);
    }
}
