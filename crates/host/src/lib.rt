// The calls on words for a host in C or Rust: the record is three numbers, an answer is the paper's number, and what else is answered is written
// through the references that the host passes. A refusal writes nothing. Every call is total. host_c exports them to C, under the same names.
#![tactic(auto)]

ghost use Rattle.std.specs.Prelude.{◌≡◌};
ghost use Rattle.value.specs.Encoding.{words};
ghost use Rattle.model.specs.Entries.{entry};
ghost use Rattle.lent.specs.Says.{Says};
ghost use Rattle.store.specs.Store.{slices, store_of, seen};
ghost use Rattle.store.specs.Written.{Sound};
ghost use Rattle.host.specs.Host.{sizes, FreshGives, GetGives, SetGives, NextGives, LengthGives, ReserveGives};

use index::Word;
use reads::Next;
use store::{Record, View};
use value::Words;

fn sizes_of(size: usize, allowance: usize, count: usize) -> Record
    ensures { result ≡ sizes size allowance count }
{
    Record {
        size,
        allowance,
        count,
    }
}

fn view_of<'a>(
    array: &'a [u64],
    entries: &'a [u64],
    index: &'a [Word],
    size: usize,
    allowance: usize,
    count: usize,
) -> View<'a>
    ensures { seen result ≡ store_of array.now entries.now index.now (sizes size allowance count) }
{
    View {
        array,
        entries,
        index,
        sizes: sizes_of(size, allowance, count),
    }
}

pub fn amzighrod_check(
    array: &[u64],
    entries: &[u64],
    index: &[Word],
    size: usize,
    allowance: usize,
    count: usize,
) -> bool
    ensures { Says result (Sound (store_of array.now entries.now index.now (sizes size allowance count))) }
{
    store::check(&view_of(array, entries, index, size, allowance, count))
}

pub fn amzighrod_fresh(
    array: &mut [u64],
    entries: &mut [u64],
    index: &mut [Word],
    size: &mut usize,
    allowance: &mut usize,
    count: &mut usize,
) -> u8
    ensures { FreshGives (slices array.old entries.old index.old) (slices array.new entries.new index.new) (sizes size.old allowance.old count.old) (sizes size.new allowance.new count.new) result }
{
    let made = store::fresh(array, entries, index);
    if let Ok(fresh) = made {
        *size = fresh.size;
        *allowance = fresh.allowance;
        *count = fresh.count;
    }
    value::answer_number(&made)
}

pub fn amzighrod_get(
    array: &[u64],
    entries: &[u64],
    index: &[Word],
    size: usize,
    allowance: usize,
    count: usize,
    keykind: u64,
    keypayload: u64,
    kind: &mut u64,
    payload: &mut u64,
) -> u8
    ensures { GetGives (store_of array.now entries.now index.now (sizes size allowance count)) (words keykind keypayload) (words kind.old payload.old) (words kind.new payload.new) result }
{
    let key = Words::new(keykind, keypayload);
    let got = reads::get_words(&view_of(array, entries, index, size, allowance, count), key);
    if let Ok(found) = got {
        *kind = found.kind;
        *payload = found.payload;
    }
    value::answer_number(&got)
}

pub fn amzighrod_set(
    array: &mut [u64],
    entries: &mut [u64],
    index: &mut [Word],
    size: &mut usize,
    allowance: &mut usize,
    count: &mut usize,
    keykind: u64,
    keypayload: u64,
    valuekind: u64,
    valuepayload: u64,
    kind: &mut u64,
    payload: &mut u64,
) -> u8
    ensures { SetGives (store_of array.old entries.old index.old (sizes size.old allowance.old count.old)) (words keykind keypayload) (words valuekind valuepayload) (words kind.old payload.old) (store_of array.new entries.new index.new (sizes size.new allowance.new count.new)) (words kind.new payload.new) result }
{
    let set = writes::set_words(
        array,
        entries,
        index,
        sizes_of(*size, *allowance, *count),
        Words::new(keykind, keypayload),
        Words::new(valuekind, valuepayload),
    );
    if let Ok((previous, sizes)) = set {
        *size = sizes.size;
        *allowance = sizes.allowance;
        *count = sizes.count;
        *kind = previous.kind;
        *payload = previous.payload;
    }
    value::answer_number(&set)
}

// 0 and the pair after the key, which is written over the key; 1 for Last and 2 for NotFound, as in a trace.
pub fn amzighrod_next(
    array: &[u64],
    entries: &[u64],
    index: &[Word],
    size: usize,
    allowance: usize,
    count: usize,
    keykind: &mut u64,
    keypayload: &mut u64,
    kind: &mut u64,
    payload: &mut u64,
) -> u8
    ensures { NextGives (store_of array.now entries.now index.now (sizes size allowance count)) (entry (words keykind.old keypayload.old) (words kind.old payload.old)) (entry (words keykind.new keypayload.new) (words kind.new payload.new)) result }
{
    let key = Words::new(*keykind, *keypayload);
    match reads::next_words(&view_of(array, entries, index, size, allowance, count), key) {
        Ok(Next::Found(k, v)) => {
            *keykind = k.kind;
            *keypayload = k.payload;
            *kind = v.kind;
            *payload = v.payload;
            0
        }
        Ok(Next::Last) => 1,
        Ok(Next::NotFound) => 2,
        Err(refusal) => u8::from(refusal),
    }
}

pub fn amzighrod_length(
    array: &[u64],
    entries: &[u64],
    index: &[Word],
    size: usize,
    allowance: usize,
    count: usize,
    border: &mut u64,
) -> u8
    ensures { LengthGives (store_of array.now entries.now index.now (sizes size allowance count)) border.old border.new result }
{
    let measured = reads::length(&view_of(array, entries, index, size, allowance, count));
    if let Ok(n) = measured {
        *border = n;
    }
    value::answer_number(&measured)
}

pub fn amzighrod_reserve(
    array: &mut [u64],
    entries: &mut [u64],
    index: &mut [Word],
    size: &mut usize,
    allowance: &mut usize,
    count: &mut usize,
    n: usize,
) -> u8
    ensures { ReserveGives (store_of array.old entries.old index.old (sizes size.old allowance.old count.old)) n (store_of array.new entries.new index.new (sizes size.new allowance.new count.new)) result }
{
    let reserved = writes::reserve(
        array,
        entries,
        index,
        sizes_of(*size, *allowance, *count),
        n,
    );
    if let Ok(after) = reserved {
        *size = after.size;
        *allowance = after.allowance;
        *count = after.count;
    }
    value::answer_number(&reserved)
}
