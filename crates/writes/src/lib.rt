// The calls that write (the original's RawTable::set with its growth, and reserve_map), on stored words. A public call tests the shape first
// and assumes nothing; the functions beneath are lent a store of right shape. Of the words nothing is assumed. Every refusal is decided before
// the first word is written. The slices and the record stay four parameters: of a struct that holds slices lent to be written, no two fields can
// be lent to one call yet, as taking an entry out of the index and appending one need.
#![tactic(auto)]

ghost use Rattle.std.specs.Prelude.{◌≡◌, true, ◌+◌, ◌*◌, ◌/◌, ◌^◌, ◌<◌, ◌≤◌, length, set};
ghost use Rattle.lent.specs.Lent.{put_entry};
ghost use Rattle.index.specs.Index.{word_bits};
ghost use Rattle.model.specs.Table.{within};
ghost use Rattle.model.specs.Calls.{are_values};
ghost use Rattle.rehash.specs.Rehash.{StaysTo, staying_in};
ghost use Rattle.store.specs.Store.{slices, store_of};
ghost use Rattle.store.specs.Shape.{Shaped};
ghost use Rattle.writes.specs.Writes.{SetDone, ReserveDone};
ghost use Rattle.writes.specs.Roads.{ArrayGrown, EntryGrown, with_count, GrowDone, AbsentDoes, KeyDone};

use index::{Found, Word};
use lent::Entries;
use store::Record;
use value::{Refusal, Words};

// Growth that leads the new key into the array.
fn grow_array(
    array: &mut [u64],
    entries: &mut [u64],
    index: &mut [Word],
    sizes: Record,
    size: usize,
    first: usize,
    key: Words,
    v: Words,
) -> Record
    requires { Shaped (store_of array.old entries.old index.old sizes) × (sizes.size ≤ size) × (size ≤ length array.old / 2) × (first ≤ sizes.count) × StaysTo entries.old first size × (within size key ≡ true) }
    ensures { ArrayGrown (store_of array.old entries.old index.old sizes) size key v (store_of array.new entries.new index.new result) }
{
    let grown = rehash::rehash(array, entries, index, sizes, size, first);
    lent::put_value(array, store::place_of(key), v);
    grown
}

// Growth that appends the new key.
fn grow_entries(
    array: &mut [u64],
    entries: &mut [u64],
    index: &mut [Word],
    sizes: Record,
    size: usize,
    first: usize,
    key: Words,
    v: Words,
) -> Record
    requires { Shaped (store_of array.old entries.old index.old sizes) × (sizes.size ≤ size) × (size ≤ length array.old / 2) × (first ≤ sizes.count) × StaysTo entries.old first size × (length (staying_in entries.old sizes.count size) < length entries.old / 4) }
    ensures { EntryGrown (store_of array.old entries.old index.old sizes) size key v (store_of array.new entries.new index.new result) }
{
    let grown = rehash::rehash(array, entries, index, sizes, size, first);
    let n = grown.count;
    lent::put_entry(entries, n, key, v);
    let after = Entries {
        words: entries,
        count: n + 1,
    };
    index::place_from(&after, index, n);
    Record {
        size: size,
        allowance: growth::grown_allowance(entries.len() / 4, n, grown.allowance),
        count: n + 1,
    }
}

// A new key that finds no place.
fn grow(
    array: &mut [u64],
    entries: &mut [u64],
    index: &mut [Word],
    sizes: Record,
    key: Words,
    v: Words,
) -> Result<(Words, Record), Refusal>
    requires { Shaped (store_of array.old entries.old index.old sizes) }
    ensures { GrowDone (store_of array.old entries.old index.old sizes) key v (slices array.new entries.new index.new) result }
{
    let size = growth::array_size(array, entries, sizes, key);
    let before = Entries {
        words: entries,
        count: sizes.count,
    };
    let staying = rehash::survey(&before, size);
    if store::is_within(key, size) {
        let after = grow_array(array, entries, index, sizes, size, staying.first, key, v);
        return Ok((Words::NIL, after));
    }
    if entries.len() / 4 <= staying.number {
        return Err(Refusal::NoRoom);
    }
    let after = grow_entries(array, entries, index, sizes, size, staying.first, key, v);
    Ok((Words::NIL, after))
}

// A new entry, where the search for its key stopped.
fn append(
    entries: &mut [u64],
    index: &mut [Word],
    sizes: Record,
    place: usize,
    key: Words,
    v: Words,
) -> Record
    requires { (4 * sizes.count + 4 ≤ length entries.old) × (place < length index.old) × (sizes.count + 1 < 2 ^ word_bits) }
    ensures entries { entries.new ≡ put_entry entries.old sizes.count key v }
    ensures index { index.new ≡ set index.old place (sizes.count + 1) }
    ensures sizes { result ≡ with_count sizes (sizes.count + 1) }
{
    let n = sizes.count;
    lent::put_entry(entries, n, key, v);
    index::place_at(index, place, n);
    Record {
        count: n + 1,
        ..sizes
    }
}

// A key that has no index below A and no entry.
fn set_absent(
    array: &mut [u64],
    entries: &mut [u64],
    index: &mut [Word],
    sizes: Record,
    place: usize,
    key: Words,
    v: Words,
) -> Result<(Words, Record), Refusal>
    requires { Shaped (store_of array.old entries.old index.old sizes) × (place < length index.old) }
    ensures { AbsentDoes (store_of array.old entries.old index.old sizes) place key v (slices array.new entries.new index.new) result }
{
    if v.is_nil() {
        return Ok((Words::NIL, sizes));
    }
    if sizes.count < sizes.allowance {
        return Ok((Words::NIL, append(entries, index, sizes, place, key, v)));
    }
    grow(array, entries, index, sizes, key, v)
}

// A canonical key.
fn set_key(
    array: &mut [u64],
    entries: &mut [u64],
    index: &mut [Word],
    sizes: Record,
    key: Words,
    v: Words,
) -> Result<(Words, Record), Refusal>
    requires { Shaped (store_of array.old entries.old index.old sizes) }
    ensures { KeyDone (store_of array.old entries.old index.old sizes) key v (slices array.new entries.new index.new) result }
{
    if store::is_within(key, sizes.size) {
        return Ok((lent::put_value(array, store::place_of(key), v), sizes));
    }
    let in_use = Entries {
        words: entries,
        count: sizes.count,
    };
    match index::search(&in_use, index, key) {
        Found::At(i) => Ok((lent::put_value(entries, 2 * i + 1, v), sizes)),
        Found::Absent(place) => set_absent(array, entries, index, sizes, place, key, v),
        Found::Full => Err(Refusal::NoRoom),
    }
}

// Whether the words of a key and of a value are values'.
fn are_values(key: Words, v: Words) -> bool
    ensures { result ≡ are_values key v }
{
    lent::decodable(key) && lent::decodable(v)
}

pub fn set_words(
    array: &mut [u64],
    entries: &mut [u64],
    index: &mut [Word],
    sizes: Record,
    key: Words,
    v: Words,
) -> Result<(Words, Record), Refusal>
    ensures { SetDone (store_of array.old entries.old index.old sizes) key v (slices array.new entries.new index.new) result }
{
    if !store::right_shape(array.len(), entries.len(), index.len(), sizes) {
        return Err(Refusal::WrongShape);
    }
    if !are_values(key, v) {
        return Err(Refusal::NoValue);
    }
    let k = key::canonical_key(key)?;
    set_key(array, entries, index, sizes, k, v)
}

// Room for n entries more.
pub fn reserve(
    array: &mut [u64],
    entries: &mut [u64],
    index: &mut [Word],
    sizes: Record,
    n: usize,
) -> Result<Record, Refusal>
    ensures { ReserveDone (store_of array.old entries.old index.old sizes) n (slices array.new entries.new index.new) result }
{
    if !store::right_shape(array.len(), entries.len(), index.len(), sizes) {
        return Err(Refusal::WrongShape);
    }
    if n <= sizes.allowance - sizes.count {
        return Ok(sizes);
    }
    let before = Entries {
        words: entries,
        count: sizes.count,
    };
    let staying = rehash::survey(&before, sizes.size);
    let room = entries.len() / 4;
    if room - staying.number < n {
        return Err(Refusal::NoRoom);
    }
    let kept = rehash::rehash(array, entries, index, sizes, sizes.size, staying.first);
    Ok(Record {
        allowance: sizes.allowance.max(kept.count + n),
        ..kept
    })
}
