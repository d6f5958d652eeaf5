// The store: a table's lent words with its record (in place of the original's Vec and HashMap). Its shape, the check of a store that may
// hold anything, and a fresh one. No public call assumes anything of what it is lent.
#![tactic(auto)]

ghost use Rattle.std.specs.Prelude.{◌≡◌, ◌*◌, ◌<◌, ◌≤◌, length};
ghost use Rattle.key.specs.Canonical.{canonical_key};
ghost use Rattle.lent.specs.Says.{Says};
ghost use Rattle.model.specs.Table.{within, place_of};
ghost use Rattle.model.specs.WellFormed.{ZeroOrPower};
ghost use Rattle.store.specs.Store.{slices, store_of, lengths, seen};
ghost use Rattle.store.specs.Shape.{RightLengths, Shape, Shaped};
ghost use Rattle.store.specs.Written.{Sound};
ghost use Rattle.store.specs.Clauses.{AllCanonical, AllOutside, Clauses};
ghost use Rattle.store.specs.Fresh.{FreshMade};

use index::Word;
use lent::Entries;
use std::fmt;
use value::{Refusal, Words};

// The limits of lent room, in values, entries and index words. The same numbers stand in specs/Limits.antt.
pub const ARRAY_LIMIT: usize = 65536;

pub const ENTRY_LIMIT: usize = 32768;

pub const INDEX_LIMIT: usize = 65536;

// What a store's words do not say themselves: array size A, entry allowance M and entry count E.
#[derive(Clone, Copy, Debug, PartialEq, Eq)]
pub struct Record {
    pub size: usize,
    pub allowance: usize,
    pub count: usize,
}

impl Record {
    // Of a fresh store.
    pub const FRESH: Record = Record {
        size: 0,
        allowance: 0,
        count: 0,
    };
}

// A, M and E.
impl fmt::Display for Record {
    fn fmt<W: fmt::Write>(&self, f: &mut fmt::Formatter<W>) -> fmt::Result {
        write!(f, "{} {} {}", self.size, self.allowance, self.count)
    }
}

// A store to look at: three lent slices, and the record that goes with them.
#[derive(Clone, Copy)]
pub struct View<'a> {
    pub array: &'a [u64],
    pub entries: &'a [u64],
    pub index: &'a [Word],
    pub sizes: Record,
}

impl<'a> View<'a> {
    // The entries in use.
    pub fn in_use(&self) -> Entries<'a>
        requires { Shaped (seen self.now) }
        ensures words { result.words.now ≡ self.now.entries.now }
        ensures count { result.count ≡ self.now.sizes.count }
    {
        Entries {
            words: self.entries,
            count: self.sizes.count,
        }
    }
}

// Three lengths and no View: `fresh` has no record yet.
fn right_lengths(array: usize, entries: usize, index: usize) -> bool
    ensures { Says result (RightLengths (lengths array entries index)) }
{
    if array % 2 != 0 {
        return false;
    }
    if entries % 4 != 0 {
        return false;
    }
    if ARRAY_LIMIT < array / 2 {
        return false;
    }
    if ENTRY_LIMIT < entries / 4 {
        return false;
    }
    if index < 2 {
        return false;
    }
    if INDEX_LIMIT < index {
        return false;
    }
    if index < 2 * (entries / 4) {
        return false;
    }
    index.is_power_of_two()
}

// Whether the slices' lengths and the record have the right shape: what a call that is passed a record tests first.
pub fn right_shape(array: usize, entries: usize, index: usize, sizes: Record) -> bool
    ensures { Says result (Shape (lengths array entries index) sizes) }
{
    if array / 2 < sizes.size {
        return false;
    }
    if sizes.allowance < sizes.count {
        return false;
    }
    if entries / 4 < sizes.allowance {
        return false;
    }
    right_lengths(array, entries, index)
}

pub fn is_shaped(view: &View) -> bool
    ensures { Says result (Shaped (seen view.now)) }
{
    right_shape(
        view.array.len(),
        view.entries.len(),
        view.index.len(),
        view.sizes,
    )
}

// Whether a key has an array index below a size.
#[tactic(auto, unfolding(model::specs::Table::within))]
pub fn is_within(key: Words, size: usize) -> bool
    ensures { result ≡ within size key }
{
    key::array_index(key).is_some_and(|i| i < size as u64)
}

// The place in the array of a key that has an array index.
pub fn place_of(key: Words) -> usize
    ensures { result ≡ place_of key }
{
    key::array_index(key).map_or(0, |i| i as usize)
}

fn is_canonical(key: Words) -> bool
    ensures { Says result (canonical_key key ≡ Ok key) }
{
    key::canonical_key(key) == Ok(key)
}

fn all_canonical(entries: &Entries) -> bool
    ensures { Says result (AllCanonical entries.now.words.now entries.now.count) }
{
    (0..entries.count).all(|i| is_canonical(entries.key(i)))
}

// Whether no entry's key has an array index below A.
fn all_outside(entries: &Entries, size: usize) -> bool
    ensures { Says result (AllOutside entries.now.words.now entries.now.count size) }
{
    (0..entries.count).all(|i| !is_within(entries.key(i), size))
}

fn zero_or_power(n: usize) -> bool
    ensures { Says result (ZeroOrPower n) }
{
    n == 0 || n.is_power_of_two()
}

// Whether the clauses after the shape hold, in the order in which a fault finder would name them, but for the repeated key: that one goes by
// the index. The slices are parameters of their own: of those the check knows that each word fits in its type.
fn clauses_hold(array: &[u64], entries: &[u64], index: &[Word], sizes: Record) -> bool
    requires { Shaped (store_of array.now entries.now index.now sizes) }
    ensures { Says result (Clauses (store_of array.now entries.now index.now sizes)) }
{
    let size = sizes.size;
    let in_use = Entries {
        words: entries,
        count: sizes.count,
    };
    if !zero_or_power(size) {
        return false;
    }
    if !lent::all_decode(array) {
        return false;
    }
    if !lent::all_decode(entries) {
        return false;
    }
    if !all_canonical(&in_use) {
        return false;
    }
    if !all_outside(&in_use, size) {
        return false;
    }
    if !lent::all_zero(array, 2 * size) {
        return false;
    }
    if !lent::all_zero(entries, 4 * sizes.count) {
        return false;
    }
    index::is_right(&in_use, index)
}

// Whether a store is sound, whatever it holds.
pub fn check(view: &View) -> bool
    ensures { Says result (Sound (seen view.now)) }
{
    if !is_shaped(view) {
        return false;
    }
    clauses_hold(view.array, view.entries, view.index, view.sizes)
}

// A fresh store in lent slices.
pub fn fresh(array: &mut [u64], entries: &mut [u64], index: &mut [Word]) -> Result<Record, Refusal>
    ensures { FreshMade (slices array.old entries.old index.old) (slices array.new entries.new index.new) result }
{
    if !right_lengths(array.len(), entries.len(), index.len()) {
        return Err(Refusal::WrongShape);
    }
    array.fill(0);
    entries.fill(0);
    index.fill(0);
    Ok(Record::FRESH)
}
