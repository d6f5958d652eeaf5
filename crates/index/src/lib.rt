// The index of the entries (in place of the original's HashMap): a key's home, search, entries put in and taken out, and the test that an
// index is the one got by inserting the entries in turn. Entries are lent words, four an entry: its key's two and then its value's.
// An inner layer: a `requires` is what a right shape gives, or an answer of this crate. Of the words nothing is assumed.
#![tactic(auto)]

ghost use Rattle.std.specs.Prelude.{◌≡◌, ◌+◌, ◌*◌, ◌%◌, ◌^◌, ◌<◌, ◌≤◌, length, replicate, slice_set};
ghost use Rattle.lent.specs.Says.{Says};
ghost use Rattle.index.specs.Home.{multiple, mixed, home_of, next_place};
ghost use Rattle.index.specs.Index.{word_bits, homes, Indexes, seat_of, used, Right};
ghost use Rattle.index.specs.Search.{searched, Stands, Finds, FindsOwn, AllFound};

use lent::Entries;
use value::Words;

// 0 is empty, else an entry's position + 1. The width has these names, this and `word_bits`; its number stands again in the program `checks`,
// and in what C is told (bindings/).
pub type Word = u16;

// No Option and no Result: there are two ways of not finding a key, and callers tell them apart.
#[derive(Clone, Copy)]
pub enum Found {
    // the entry that has the key
    At(usize),
    // the empty place where the search stopped
    Absent(usize),
    // no entry and no empty place: only on words that are no right index
    Full,
}

// The constant taken kind times, modulo 2^64.
#[tactic(auto, unfolding(crate::specs::Home::multiple))]
fn times(kind: u64) -> u64
    ensures { result ≡ multiple kind % 2 ^ 64 }
{
    if kind <= 9 {
        kind.wrapping_mul(0x9e37_79b9_7f4a_7c15)
    } else {
        0
    }
}

#[tactic(auto, unfolding(crate::specs::Home::mixed))]
fn mix(key: Words) -> u64
    ensures { result ≡ mixed key }
{
    let x = key.payload.wrapping_add(times(key.kind));
    let y = x ^ (x >> 32);
    y ^ (y >> 16)
}

#[tactic(auto, unfolding(crate::specs::Home::home_of))]
fn home_of(key: Words, n: usize) -> usize
    requires { 0 < n }
    ensures { (result < n) × (result ≡ home_of n key) }
{
    (mix(key) % n as u64) as usize
}

// The place after j, of n in a ring.
#[tactic(auto, unfolding(crate::specs::Home::next_place))]
fn next_place(j: usize, n: usize) -> usize
    requires { j < n }
    ensures { (result < n) × (result ≡ next_place n j) }
{
    let k = j + 1;
    if k == n { 0 } else { k }
}

// Upward from the key's home, wrapping, to the entry that has the key or to the first empty word. A position past the count is no entry.
// A chain of two ranges in place of the `for` took 193 instructions a get against 170.
pub fn search(entries: &Entries, index: &[Word], key: Words) -> Found
    requires { 0 < length index.now }
    ensures any { result ≡ searched entries.now.words.now entries.now.count index.now key }
    ensures safe { Stands entries.now.count (length index.now) result }
    ensures right { Right entries.now.words.now entries.now.count index.now → Finds entries.now.words.now entries.now.count index.now key result }
{
    let n = index.len();
    let mut j = home_of(key, n);
    for _ in 0..n {
        let w = index[j] as usize;
        if w == 0 {
            return Found::Absent(j);
        }
        let i = w - 1;
        if i < entries.count && entries.key(i) == key {
            return Found::At(i);
        }
        j = next_place(j, n);
    }
    Found::Full
}

// The first place at home or after it that none of the first i entries has, which is where entry i stands or would be put in; home, where
// they have every place.
#[tactic(auto, using(crate::proofs::Insert::seating), unfolding(crate::specs::Index::seat_of))]
fn seat_of(index: &[Word], home: usize, i: usize) -> usize
    requires { home < length index.now }
    ensures { (result < length index.now) × (result ≡ seat_of index.now home i) }
{
    let n = index.len();
    let mut place = home;
    for _ in 0..n {
        let w = index[place] as usize;
        if w == 0 || i < w {
            return place;
        }
        place = next_place(place, n);
    }
    place
}

// The seat of entry i.
fn entry_seat(entries: &Entries, index: &[Word], i: usize) -> usize
    requires { (i < entries.now.count) × (0 < length index.now) }
    ensures { (result < length index.now) × (result ≡ seat_of index.now (homes (length index.now) entries.now.words.now i) i) }
{
    let home = home_of(entries.key(i), index.len());
    seat_of(index, home, i)
}

// The word of an entry, at a place.
pub fn place_at(index: &mut [Word], place: usize, position: usize)
    requires { (place < length index.old) × (position + 1 < 2 ^ word_bits) }
    ensures { index.new ≡ slice_set index.old place (position + 1) }
{
    index[place] = (position + 1) as Word;
}

// Entries from `first` to count - 1 are put in, in turn.
#[tactic(auto, using(crate::proofs::Seats::put_turn))]
pub fn place_from(entries: &Entries, index: &mut [Word], first: usize)
    requires { (entries.now.count < length index.old) × (entries.now.count < 2 ^ word_bits) × (first ≤ entries.now.count) }
    ensures { Indexes entries.now.words.now first index.old → Indexes entries.now.words.now entries.now.count index.new }
{
    for i in first..entries.count {
        let place = entry_seat(entries, index, i);
        place_at(index, place, i);
    }
}

// Entries from count - 1 down to `first` are taken out, the last placed first.
#[tactic(auto, using(crate::proofs::Seats::take_turn))]
pub fn take_out(entries: &Entries, index: &mut [Word], first: usize)
    requires { (entries.now.count < length index.old) × (first ≤ entries.now.count) }
    ensures { Indexes entries.now.words.now entries.now.count index.old → Indexes entries.now.words.now first index.new }
{
    for i in (first..entries.count).rev() {
        let place = entry_seat(entries, index, i);
        index[place] = 0;
    }
}

// How many words are not empty.
// A filter and a count in place of the `for` took 338 µs over 65,536 random words against 45.
fn used_words(index: &[Word]) -> usize
    ensures { result ≡ used index.now }
{
    let mut used = 0;
    for word in index {
        if *word != 0 {
            used += 1;
        }
    }
    used
}

// Whether the index is the one got by inserting the entries in turn: as many words used as there are entries, and each entry in its seat.
fn is_inserted(entries: &Entries, index: &[Word]) -> bool
    requires { entries.now.count < length index.now }
    ensures { Says result (Indexes entries.now.words.now entries.now.count index.now) }
{
    used_words(index) == entries.count
        && (0..entries.count).all(|i| index[entry_seat(entries, index, i)] as usize == i + 1)
}

// Whether a search for entry i's key finds entry i.
fn finds_own(entries: &Entries, index: &[Word], i: usize) -> bool
    requires { (0 < length index.now) × (i < entries.now.count) }
    ensures { Says result (FindsOwn entries.now.words.now entries.now.count index.now i) }
{
    let found = search(entries, index, entries.key(i));
    matches!(found, Found::At(j) if j == i)
}

fn all_found(entries: &Entries, index: &[Word]) -> bool
    requires { 0 < length index.now }
    ensures { Says result (AllFound entries.now.words.now entries.now.count index.now) }
{
    (0..entries.count).all(|i| finds_own(entries, index, i))
}

// Whether the index is right. Where it is the one got by inserting the entries in turn, each entry is found by its key exactly when no two
// have one key.
#[tactic(auto, using(crate::proofs::Searches::found_by_key))]
pub fn is_right(entries: &Entries, index: &[Word]) -> bool
    requires { entries.now.count < length index.now }
    ensures { Says result (Right entries.now.words.now entries.now.count index.now) }
{
    is_inserted(entries, index) && all_found(entries, index)
}
