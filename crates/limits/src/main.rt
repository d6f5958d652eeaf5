// Performs sequences of calls, each on a fresh store in lent slices, and writes a line for each call: 01's sequences, the limits of lent room,
// and others where the rules turn. The input is records of five little-endian 64-bit words: the kind of call, and what is passed to it. What
// the lines must be is worked out apart from this code: tests/limits. Of the input nothing is assumed. Here a call is read off its words and
// performed, by the crates `calls` and `lines`. An error is that of a write, and ends the run; the slices are then as the calls so far left
// them.
#![tactic(auto)]

use calls::Call;
use index::Word;
use std::io;
use store::{Record, View};

// A call, and the record after it. A fresh store is no call of a sequence: it begins one.
fn perform(
    rt: &impl Print,
    array: &mut [u64],
    entries: &mut [u64],
    index: &mut [Word],
    sizes: Record,
    call: Call,
) -> io::Result<Record> {
    let view = View {
        array,
        entries,
        index,
        sizes,
    };
    match call {
        Call::Get(key) => lines::call_get(rt, &view, key)?,
        Call::Length => lines::call_length(rt, &view)?,
        Call::Next(key) => lines::call_next(rt, &view, key)?,
        Call::Check => lines::call_check(rt, &view)?,
        Call::Walk(most) => lines::call_walk(rt, &view, most)?,
        Call::Set(key, v) => return lines::call_set(rt, array, entries, index, sizes, key, v),
        Call::Reserve(n) => return lines::call_reserve(rt, array, entries, index, sizes, n),
        Call::Fill { first, end } => {
            return lines::call_fill(rt, array, entries, index, sizes, first, end);
        }
        Call::Record(sizes) => return lines::call_record(rt, sizes),
        Call::Fresh { .. } | Call::Unknown => println!(rt; "unknown")?,
    }
    Ok(sizes)
}

// Calls that have no store.
fn skip(rt: &impl Print, records: &[[u64; 5]]) -> io::Result<()> {
    for _ in records {
        println!(rt; "no sequence")?;
    }
    Ok(())
}

// A fresh store in slices of the lengths that the first record gives, and the other calls on it.
fn sequence(
    rt: &impl Print,
    array: &mut [u64],
    entries: &mut [u64],
    index: &mut [Word],
    records: &[[u64; 5]],
) -> io::Result<()> {
    let [first, others @ ..] = records else {
        return Ok(());
    };
    let Call::Fresh {
        array: a,
        entries: e,
        index: n,
        number,
    } = Call::from(*first)
    else {
        return skip(rt, records);
    };
    let (Some(array), Some(entries), Some(index)) = (
        array.get_mut(..a),
        entries.get_mut(..e),
        index.get_mut(..n),
    ) else {
        println!(rt; "too long")?;
        return skip(rt, others);
    };
    let mut sizes = lines::call_fresh(rt, array, entries, index, number)?;
    for record in others {
        sizes = perform(rt, array, entries, index, sizes, Call::from(*record))?;
    }
    Ok(())
}

// Whether a record begins a sequence.
fn begins(record: &[u64; 5]) -> bool {
    matches!(Call::from(*record), Call::Fresh { .. })
}

// The slices are the same for all sequences, so that a fresh store is made in what the one before left.
fn run(
    rt: &impl Print,
    array: &mut [u64],
    entries: &mut [u64],
    index: &mut [Word],
    records: &[[u64; 5]],
) -> io::Result<()> {
    for calls in records.chunk_by(|_, next| !begins(next)) {
        sequence(rt, array, entries, index, calls)?;
    }
    Ok(())
}

// Input that ends within a record is told.
fn main(rt: HostRuntime) -> io::Result<()> {
    let mut words: [u64; console::ROOM] = lent::room();
    let count = console::read_input(&rt, &mut words)?;
    let (records, rest) = words[..count].as_chunks::<5>();
    let mut array: [u64; console::ROOM] = lent::room();
    let mut entries: [u64; console::ROOM] = lent::room();
    let mut index: [Word; console::ROOM] = lent::room();
    run(&rt, &mut array, &mut entries, &mut index, records)?;
    if !rest.is_empty() {
        console::cut(&rt, rest)?;
    }
    Ok(())
}
