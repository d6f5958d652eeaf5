// The calls that read (the original's RawTable::get, next and length), on stored words. A public call tests the shape first and assumes
// nothing; the functions beneath are lent a store of right shape. Of the words nothing is assumed.
#![tactic(auto)]

ghost use Rattle.std.specs.Prelude.{◌≡◌, ◌++◌, ◌-◌, ◌*◌, ◌^◌, ◌<◌, ◌≤◌, length as len, MatchResult};
ghost use Rattle.value.specs.Encoding.{Decodes};
ghost use Rattle.key.specs.Canonical.{integer, largest};
ghost use Rattle.model.specs.Entries.{has, first};
ghost use Rattle.model.specs.Table.{lookup};
ghost use Rattle.model.specs.Growth.{tabulate};
ghost use Rattle.model.specs.Length.{nil_at, halve as halved, double as doubled, length_of};
ghost use Rattle.store.specs.Store.{seen};
ghost use Rattle.store.specs.Shape.{Shaped};
ghost use Rattle.store.specs.Written.{Sound, pair_at, entry_at, table_of, entries_in};
ghost use Rattle.index.specs.Index.{Right};
ghost use Rattle.reads.specs.Reads.{Refuses, RefusesKey, GetAnswers, in_words, NextKey, NextAnswers, LengthAnswers};

use index::{Found, Word};
use lent::Entries;
use store::View;
use value::{Refusal, Words};

// The original's NextValue.
#[derive(Clone, Copy)]
pub enum Next<T> {
    // a key and its value
    Found(T, T),
    Last,
    NotFound,
}

const LARGEST: u64 = i64::MAX as u64;

// The value under a canonical key.
fn get_key(view: &View, key: Words) -> Words
    requires { Shaped (seen view.now) }
    ensures { Sound (seen view.now) → result ≡ lookup (table_of (seen view.now)) key }
{
    if store::is_within(key, view.sizes.size) {
        return lent::value_at(view.array, store::place_of(key));
    }
    let entries = view.in_use();
    match index::search(&entries, view.index, key) {
        Found::At(i) => entries.value(i),
        Found::Absent(_) => Words::NIL,
        Found::Full => Words::NIL,
    }
}

// A call is refused where the shape is wrong.
fn accept(view: &View) -> Result<(), Refusal>
    ensures { MatchResult result (λ _. Shaped (seen view.now)) (Refuses (seen view.now)) }
{
    if !store::is_shaped(view) {
        return Err(Refusal::WrongShape);
    }
    Ok(())
}

// One with a key, then, where the key's words are no value's.
fn accept_key(view: &View, key: Words) -> Result<(), Refusal>
    ensures { MatchResult result (λ _. Shaped (seen view.now) × Decodes key) (RefusesKey (seen view.now) key) }
{
    accept(view)?;
    if !lent::decodable(key) {
        return Err(Refusal::NoValue);
    }
    Ok(())
}

pub fn get_words(view: &View, key: Words) -> Result<Words, Refusal>
    ensures { GetAnswers (seen view.now) key result }
{
    accept_key(view, key)?;
    let Ok(k) = key::canonical_key(key) else {
        return Ok(Words::NIL);
    };
    Ok(get_key(view, k))
}

// The first entry from a position on that has a value.
fn next_entry(entries: &Entries, from: usize) -> Next<Words>
    requires { from ≤ entries.now.count }
    ensures { result ≡ in_words (first (tabulate (entries.now.count - from) (entry_at entries.now.words.now) from)) }
{
    for i in from..entries.count {
        let v = entries.value(i);
        if !v.is_nil() {
            return Next::Found(entries.key(i), v);
        }
    }
    Next::Last
}

// The first pair from an array place on that has a value, in the array and then in the entries.
fn next_pair(view: &View, from: usize) -> Next<Words>
    requires { Shaped (seen view.now) × (from ≤ view.now.sizes.size) }
    ensures { result ≡ in_words (first (tabulate (view.now.sizes.size - from) (pair_at view.now.array.now) from ++ entries_in view.now.entries.now view.now.sizes.count)) }
{
    for i in from..view.sizes.size {
        let v = lent::value_at(view.array, i);
        if !v.is_nil() {
            return Next::Found(Words::new(2, i as u64 + 1), v);
        }
    }
    next_entry(&view.in_use(), 0)
}

// The pair after a canonical key.
fn next_key(view: &View, key: Words) -> Next<Words>
    requires { Shaped (seen view.now) }
    ensures { NextKey (seen view.now) key result }
{
    if store::is_within(key, view.sizes.size) {
        return next_pair(view, store::place_of(key) + 1);
    }
    let entries = view.in_use();
    match index::search(&entries, view.index, key) {
        Found::At(i) => next_entry(&entries, i + 1),
        Found::Absent(_) => Next::NotFound,
        Found::Full => Next::NotFound,
    }
}

pub fn next_words(view: &View, key: Words) -> Result<Next<Words>, Refusal>
    ensures { NextAnswers (seen view.now) key result }
{
    accept_key(view, key)?;
    match key::canonical_key(key) {
        Ok(k) => Ok(next_key(view, k)),
        Err(Refusal::KeyIsNil) => Ok(next_pair(view, 0)),
        Err(_) => Ok(Next::NotFound),
    }
}

fn is_nil_at(view: &View, n: u64) -> bool
    requires { Shaped (seen view.now) }
    ensures { Sound (seen view.now) → result ≡ nil_at (table_of (seen view.now)) n }
{
    get_key(view, Words::new(2, n)).is_nil()
}

// Whether an Integer has an entry, cleared or not.
fn has_entry(entries: &Entries, index: &[Word], n: u64) -> bool
    requires { 0 < len index.now }
    ensures { Right entries.now.words.now entries.now.count index.now → result ≡ has (entries_in entries.now.words.now entries.now.count) (integer n) }
{
    match index::search(entries, index, Words::new(2, n)) {
        Found::At(_) => true,
        Found::Absent(_) => false,
        Found::Full => false,
    }
}

// From a number on, doubled past each that has an entry, up to the largest integer.
fn double(entries: &Entries, index: &[Word], from: u64) -> u64
    requires { (0 < len index.now) × (0 < from) × (from ≤ largest) }
    ensures range { (from ≤ result) × (result ≤ largest) }
    ensures right { Right entries.now.words.now entries.now.count index.now → result ≡ doubled (λ n. has (entries_in entries.now.words.now entries.now.count) (integer n)) 64 from }
{
    let mut max = from;
    while max < LARGEST {
        if !has_entry(entries, index, max) {
            return max;
        }
        max = if LARGEST / 2 < max { LARGEST } else { 2 * max };
    }
    max
}

// Halving: a Nil in the middle moves the upper end, else the lower one.
fn halve(view: &View, low: u64, high: u64) -> u64
    requires { Shaped (seen view.now) × (low ≤ high) }
    ensures { Sound (seen view.now) → result ≡ halved (nil_at (table_of (seen view.now))) 64 low high }
{
    let mut min = low;
    let mut max = high;
    while 1 < max - min {
        let mid = min + (max - min) / 2;
        if is_nil_at(view, mid) {
            max = mid;
        } else {
            min = mid;
        }
    }
    min
}

fn border(view: &View) -> u64
    requires { Shaped (seen view.now) }
    ensures { Sound (seen view.now) → result ≡ length_of (table_of (seen view.now)) }
{
    let size = view.sizes.size;
    if 0 < size && lent::value_at(view.array, size - 1).is_nil() {
        return halve(view, 0, size as u64);
    }
    if view.sizes.count == 0 {
        return size as u64;
    }
    let max = double(&view.in_use(), view.index, size as u64 + 1);
    if max == LARGEST && !is_nil_at(view, max) {
        return max;
    }
    halve(view, size as u64, max)
}

pub fn length(view: &View) -> Result<u64, Refusal>
    ensures { LengthAnswers (seen view.now) result }
{
    accept(view)?;
    Ok(border(view))
}
