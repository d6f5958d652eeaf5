// Growth's third step, and reserve's (01, 'Growth', step 3): cleared entries are dropped, those with an index below the new size go to the
// array, the others keep their order; the freed words are set to 0, and the index is taken back and placed again from the first entry that
// goes. An inner layer: a `requires` is what a right shape gives, or an answer of this crate. Of the words nothing is assumed.
#![tactic(auto)]

ghost use Rattle.std.specs.Prelude.{◌≡◌, ◌+◌, ◌*◌, ◌/◌, ◌≤◌, length};
ghost use Rattle.model.specs.Entries.{entry};
ghost use Rattle.model.specs.Growth.{stays as staying};
ghost use Rattle.store.specs.Store.{store_of};
ghost use Rattle.store.specs.Shape.{Shaped};
ghost use Rattle.rehash.specs.Rehash.{StaysTo, sent, Surveyed, Compacted, zeroed, Rehashes};

use index::Word;
use lent::Entries;
use store::Record;
use value::Words;

// How many entries stay, and the first that does not.
#[derive(Clone, Copy)]
pub struct Staying {
    pub number: usize,
    pub first: usize,
}

// Whether an entry stays one beside an array of this size.
#[tactic(auto, unfolding(model::specs::Growth::stays))]
fn stays(key: Words, v: Words, size: usize) -> bool
    ensures { result ≡ staying size (entry key v) }
{
    !v.is_nil() && !store::is_within(key, size)
}

pub fn survey(entries: &Entries, size: usize) -> Staying
    ensures { Surveyed entries.now.words.now entries.now.count size result }
{
    let first = (0..entries.count)
        .find(|&i| !stays(entries.key(i), entries.value(i), size))
        .unwrap_or(entries.count);
    let later = (first..entries.count)
        .filter(|&i| stays(entries.key(i), entries.value(i), size))
        .count();
    Staying {
        number: first + later,
        first,
    }
}

// An entry goes to the array, where it has a value and an index below the size.
#[tactic(auto, unfolding(crate::specs::Rehash::sent))]
fn send(array: &mut [u64], key: Words, v: Words, size: usize)
    requires { 2 * size ≤ length array.old }
    ensures { array.new ≡ sent size array.old (entry key v) }
{
    if !v.is_nil() && store::is_within(key, size) {
        lent::put_value(array, store::place_of(key), v);
    }
}

// From entry `first` on, all before it staying. The answer is how many entries there are then.
// A second number stands beside the range's: it counts what is kept, not what is read.
fn compact(array: &mut [u64], entries: &mut [u64], first: usize, count: usize, size: usize) -> usize
    requires { (4 * count ≤ length entries.old) × (2 * size ≤ length array.old) × (first ≤ count) × StaysTo entries.old first size }
    ensures { Compacted array.old entries.old first size count result array.new entries.new }
{
    let mut n = first;
    for i in first..count {
        let key = lent::value_at(entries, 2 * i);
        let v = lent::value_at(entries, 2 * i + 1);
        if stays(key, v, size) {
            lent::put_entry(entries, n, key, v);
            n += 1;
        } else {
            send(array, key, v, size);
        }
    }
    n
}

// The words of entries from one position to another are set to 0.
fn clear_entries(entries: &mut [u64], from: usize, to: usize)
    requires { (from ≤ to) × (4 * to ≤ length entries.old) }
    ensures { entries.new ≡ zeroed entries.old (4 * from) (4 * to) }
{
    entries[4 * from..4 * to].fill(0);
}

// The array has the given size then, and the record is answered. `first` is the first entry that goes: where none does, nothing is touched.
pub fn rehash(
    array: &mut [u64],
    entries: &mut [u64],
    index: &mut [Word],
    sizes: Record,
    size: usize,
    first: usize,
) -> Record
    requires { Shaped (store_of array.old entries.old index.old sizes) × (sizes.size ≤ size) × (size ≤ length array.old / 2) × (first ≤ sizes.count) × StaysTo entries.old first size }
    ensures { Rehashes (store_of array.old entries.old index.old sizes) size first result (store_of array.new entries.new index.new result) }
{
    if first == sizes.count {
        return Record { size, ..sizes };
    }
    let before = Entries {
        words: entries,
        count: sizes.count,
    };
    index::take_out(&before, index, first);
    let count = compact(array, entries, first, sizes.count, size);
    clear_entries(entries, count, sizes.count);
    let after = Entries {
        words: entries,
        count,
    };
    index::place_from(&after, index, first);
    Record {
        size,
        count,
        ..sizes
    }
}
