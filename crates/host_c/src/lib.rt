// The calls for C: each is host's of the same name, with the same promise, exported. A slice is a pointer and a length there.
// bindings/c/amzighrod.h says what each argument is. Every call is total.
#![tactic(auto)]

ghost use Rattle.value.specs.Encoding.{words};
ghost use Rattle.model.specs.Entries.{entry};
ghost use Rattle.lent.specs.Says.{Says};
ghost use Rattle.store.specs.Store.{slices, store_of};
ghost use Rattle.store.specs.Written.{Sound};
ghost use Rattle.host.specs.Host.{sizes, FreshGives, GetGives, SetGives, NextGives, LengthGives, ReserveGives};

use index::Word;

#[unsafe(no_mangle)]
pub extern "C" fn amzighrod_check(
    array: &[u64],
    entries: &[u64],
    index: &[Word],
    size: usize,
    allowance: usize,
    count: usize,
) -> bool
    ensures { Says result (Sound (store_of array.now entries.now index.now (sizes size allowance count))) }
{
    host::amzighrod_check(array, entries, index, size, allowance, count)
}

#[unsafe(no_mangle)]
pub extern "C" fn amzighrod_fresh(
    array: &mut [u64],
    entries: &mut [u64],
    index: &mut [Word],
    size: &mut usize,
    allowance: &mut usize,
    count: &mut usize,
) -> u8
    ensures { FreshGives (slices array.old entries.old index.old) (slices array.new entries.new index.new) (sizes size.old allowance.old count.old) (sizes size.new allowance.new count.new) result }
{
    host::amzighrod_fresh(array, entries, index, size, allowance, count)
}

#[unsafe(no_mangle)]
pub extern "C" fn amzighrod_get(
    array: &[u64],
    entries: &[u64],
    index: &[Word],
    size: usize,
    allowance: usize,
    count: usize,
    keykind: u64,
    keypayload: u64,
    kind: &mut u64,
    payload: &mut u64,
) -> u8
    ensures { GetGives (store_of array.now entries.now index.now (sizes size allowance count)) (words keykind keypayload) (words kind.old payload.old) (words kind.new payload.new) result }
{
    host::amzighrod_get(
        array, entries, index, size, allowance, count, keykind, keypayload, kind, payload,
    )
}

#[unsafe(no_mangle)]
pub extern "C" fn amzighrod_set(
    array: &mut [u64],
    entries: &mut [u64],
    index: &mut [Word],
    size: &mut usize,
    allowance: &mut usize,
    count: &mut usize,
    keykind: u64,
    keypayload: u64,
    valuekind: u64,
    valuepayload: u64,
    kind: &mut u64,
    payload: &mut u64,
) -> u8
    ensures { SetGives (store_of array.old entries.old index.old (sizes size.old allowance.old count.old)) (words keykind keypayload) (words valuekind valuepayload) (words kind.old payload.old) (store_of array.new entries.new index.new (sizes size.new allowance.new count.new)) (words kind.new payload.new) result }
{
    host::amzighrod_set(
        array,
        entries,
        index,
        size,
        allowance,
        count,
        keykind,
        keypayload,
        valuekind,
        valuepayload,
        kind,
        payload,
    )
}

// 0 and the pair after the key, which is written over the key; 1 for Last and 2 for NotFound, as in a trace.
#[unsafe(no_mangle)]
pub extern "C" fn amzighrod_next(
    array: &[u64],
    entries: &[u64],
    index: &[Word],
    size: usize,
    allowance: usize,
    count: usize,
    keykind: &mut u64,
    keypayload: &mut u64,
    kind: &mut u64,
    payload: &mut u64,
) -> u8
    ensures { NextGives (store_of array.now entries.now index.now (sizes size allowance count)) (entry (words keykind.old keypayload.old) (words kind.old payload.old)) (entry (words keykind.new keypayload.new) (words kind.new payload.new)) result }
{
    host::amzighrod_next(
        array, entries, index, size, allowance, count, keykind, keypayload, kind, payload,
    )
}

#[unsafe(no_mangle)]
pub extern "C" fn amzighrod_length(
    array: &[u64],
    entries: &[u64],
    index: &[Word],
    size: usize,
    allowance: usize,
    count: usize,
    border: &mut u64,
) -> u8
    ensures { LengthGives (store_of array.now entries.now index.now (sizes size allowance count)) border.old border.new result }
{
    host::amzighrod_length(array, entries, index, size, allowance, count, border)
}

#[unsafe(no_mangle)]
pub extern "C" fn amzighrod_reserve(
    array: &mut [u64],
    entries: &mut [u64],
    index: &mut [Word],
    size: &mut usize,
    allowance: &mut usize,
    count: &mut usize,
    n: usize,
) -> u8
    ensures { ReserveGives (store_of array.old entries.old index.old (sizes size.old allowance.old count.old)) n (store_of array.new entries.new index.new (sizes size.new allowance.new count.new)) result }
{
    host::amzighrod_reserve(array, entries, index, size, allowance, count, n)
}
