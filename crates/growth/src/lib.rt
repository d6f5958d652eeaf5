// What growth decides (01, 'Growth', steps 1, 2 and 4): the candidates' class counts, the array's size by them, and the allowance
// (the original's optimal_size in RawTable::set). An inner layer: a `requires` is what a right shape gives, or an answer of
// this crate. Of the words nothing is assumed.
#![tactic(auto)]

ghost use Rattle.std.specs.Prelude.{◌≡◌, List, [], ℕ, ◌+◌, ◌-◌, ◌*◌, ◌^◌, ◌<◌, ◌≤◌, length, get_or, SomeIff};
ghost use Rattle.key.specs.Canonical.{array_index};
ghost use Rattle.lent.specs.Lent.{value_at};
ghost use Rattle.model.specs.Table.{array_pairs};
ghost use Rattle.model.specs.Growth.{with_index, indices, count_below, best, tabulate, grown_allowance};
ghost use Rattle.store.specs.Limits.{array_limit, entry_limit, class_counts};
ghost use Rattle.store.specs.Store.{store_of};
ghost use Rattle.store.specs.Written.{entries_in};
ghost use Rattle.growth.specs.Counts.{class_of, Counted, Holds, AtMost, count_of_values, GrownSize};

use lent::Entries;
use store::Record;
use value::Words;

// How many candidates each class has. A class is an index's count of significant bits; 2 ^ 16 and up have none of these.
// The same number stands in store/specs/Limits.antt.
const CLASSES: usize = 17;

pub type Counts = [u32; CLASSES];

// The class of a key's index, where it is counted.
fn class_of(key: Words) -> Option<usize>
    ensures { SomeIff result (class_of (array_index key) < class_counts) (class_of (array_index key)) }
{
    let class = key::highest_bit(key::array_index(key)?) as usize;
    (class < CLASSES).then_some(class)
}

// A new key.
fn count_key(key: Words, mut counts: Counts) -> Counts
    requires { AtMost 0 counts }
    ensures { Counted (with_index (array_index key) []) counts result }
{
    if let Some(class) = class_of(key) {
        counts[class] += 1;
    }
    counts
}

// The entries that have a value.
fn count_entries(entries: &Entries, mut counts: Counts) -> Counts
    requires { (entries.now.count ≤ entry_limit) × AtMost (array_limit + 1) counts }
    ensures { Counted (indices (entries_in entries.now.words.now entries.now.count)) counts result }
{
    for i in 0..entries.count {
        if !entries.value(i).is_nil() {
            if let Some(class) = class_of(entries.key(i)) {
                counts[class] += 1;
            }
        }
    }
    counts
}

// How many values from one place to another are not Nil.
// A filter and a count in place of the `for` took 53 µs over 32,768 values against 19.
#[tactic(auto, using(crate::proofs::Ranges::values_none, crate::proofs::Ranges::values_next))]
fn count_values(array: &[u64], from: usize, to: usize) -> u32
    requires { (from ≤ to) × (2 * to ≤ length array.now) × (to ≤ array_limit) }
    ensures { (result ≡ count_of_values array.now from (to - from)) × (result ≤ to - from) }
{
    let mut n = 0;
    for i in from..to {
        if !lent::value_at(array, i).is_nil() {
            n += 1;
        }
    }
    n
}

// The array's values, by ranges of a class: class 0 has place 0, and class c the places from 2 ^ (c - 1) to 2 ^ c - 1.
fn count_array(array: &[u64], size: usize, mut counts: Counts) -> Counts
    requires { (2 * size ≤ length array.now) × (size ≤ array_limit) × AtMost 1 counts }
    ensures { Counted (indices (array_pairs 0 (tabulate size (value_at array.now) 0))) counts result }
{
    let mut from = 0;
    for (class, count) in counts.iter_mut().enumerate() {
        if from == size {
            break;
        }
        let to = size.min(1 << class);
        *count += count_values(array, from, to);
        from = to;
    }
    counts
}

// The largest power of two, at most the room, with more than half of its places among the counted; 0 if none.
fn best_size(counts: Counts, room: usize) -> usize
    requires { AtMost (array_limit + entry_limit + 1) counts }
    ensures { (l : List ℕ) → Holds l counts → result ≡ best (λ S. count_below S l) room class_counts }
{
    let mut size = 0;
    let mut total = 0;
    for (class, count) in counts.iter().enumerate() {
        let power = 1 << class;
        total += *count as usize;
        if power <= room && power / 2 < total {
            size = power;
        }
    }
    size
}

// The array's size after growth for a new key.
pub fn array_size(array: &[u64], entries: &[u64], sizes: Record, key: Words) -> usize
    requires { (2 * sizes.size ≤ length array.now) × (4 * sizes.count ≤ length entries.now) × (sizes.size ≤ array_limit) × (sizes.count ≤ entry_limit) }
    ensures { (iw : List ℕ) → GrownSize (store_of array.now entries.now iw sizes) key result }
{
    let new = count_key(key, [0; CLASSES]);
    let within = count_array(array, sizes.size, new);
    let in_use = Entries {
        words: entries,
        count: sizes.count,
    };
    let all = count_entries(&in_use, within);
    sizes.size.max(best_size(all, array.len() / 2))
}

// The allowance where some entries remain.
pub fn grown_allowance(room: usize, staying: usize, allowance: usize) -> usize
    requires { (allowance ≤ entry_limit) × (staying ≤ entry_limit) }
    ensures { result ≡ grown_allowance room staying allowance }
{
    if 2 * staying < allowance {
        return allowance;
    }
    room.min((2 * allowance).max(4))
}
