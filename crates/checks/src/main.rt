// Reads records of little-endian 64-bit words and writes a line for each: of a store, whether the check says that it is sound; of three
// lengths, what `fresh` does in slices of such lengths. What the lines must be is worked out apart from this code: tests/checks. An error is
// that of a write, and ends the run.
#![tactic(auto)]

ghost use Rattle.std.specs.Prelude.{◌≡◌, ℕ, ◌+◌, ◌%◌, ◌<◌, ◌≤◌, length, get_or, IfSome};
ghost use Rattle.lent.specs.Lent.{ZeroFrom};
ghost use Rattle.lent.specs.Says.{Says};
ghost use Rattle.console.specs.Input.{word_room, Holds};
ghost use Rattle.checks.specs.Marks.{mark_of, MarkedBy, Marked};
ghost use Rattle.checks.specs.Tasks.{index_words, ReadsStore};

use index::Word;
use std::io;
use store::{Record, View};
use value::Refusal;

// An index has 16-bit words, and its words in the input are below 2^16.
fn read_index(words: &[u64], index: &mut [Word])
    requires { length words.now ≤ length index.old }
    ensures { Holds (λ i. get_or words.now i 0 % 65536) (length words.now) index.new }
{
    for (i, word) in words.iter().enumerate() {
        index[i] = (word % 65536) as Word;
    }
}

// What stands at place i before `fresh`: another word than 0, and another at the places near it.
fn mark(i: usize) -> Word
    ensures { result ≡ mark_of i }
{
    (1 + i % 65535) as Word
}

// By place, as in the tests below: with `enumerate` the compiler makes marks one by one and not four at a time, and the program took a quarter
// more.
fn mark_words<T: Copy + From<Word>>(words: &mut [T])
    ensures { MarkedBy T.from_gives (length words.new) words.new }
{
    for i in 0..words.len() {
        words[i] = T::from(mark(i));
    }
}

fn are_marked(words: &[u64]) -> bool
    ensures { Says result (Marked words.now) }
{
    (0..words.len()).all(|i| words[i] == u64::from(mark(i)))
}

// Whether every word is 0, as in a fresh store.
fn are_zero(view: &View) -> bool
    ensures { Says result ((ZeroFrom 0 view.now.array.now) × (ZeroFrom 0 view.now.entries.now) × (ZeroFrom 0 view.now.index.now)) }
{
    lent::all_zero(view.array, 0)
        && lent::all_zero(view.entries, 0)
        && view.index.iter().all(|word| *word == 0)
}

// Whether every word is as it was before `fresh`.
fn are_unchanged(array: &[u64], entries: &[u64], index: &[Word]) -> bool
    ensures { Says result (Marked array.now × Marked entries.now × Marked index.now) }
{
    are_marked(array) && are_marked(entries) && (0..index.len()).all(|i| index[i] == mark(i))
}

fn show_made(rt: &impl Print, view: &View) -> io::Result<()> {
    let words = if are_zero(view) { "zero" } else { "not zero" };
    print!(rt; "fresh 0 {words}")?;
    console::show_sizes(rt, view.sizes)?;
    print!(rt; " ")?;
    console::show_check(rt, view)
}

// The check is shown zeros there, so that nothing but the lengths is at fault.
fn show_refused(
    rt: &impl Print,
    array: &mut [u64],
    entries: &mut [u64],
    index: &mut [Word],
    refusal: Refusal,
) -> io::Result<()> {
    let words = if are_unchanged(array, entries, index) {
        "unchanged"
    } else {
        "changed"
    };
    print!(rt; "fresh {}", u8::from(refusal))?;
    print!(rt; " {words} ")?;
    array.fill(0);
    entries.fill(0);
    index.fill(0);
    console::show_check(
        rt,
        &View {
            array,
            entries,
            index,
            sizes: Record::FRESH,
        },
    )
}

fn show_fresh(
    rt: &impl Print,
    array: &mut [u64],
    entries: &mut [u64],
    index: &mut [Word],
) -> io::Result<()> {
    mark_words(array);
    mark_words(entries);
    mark_words(index);
    match store::fresh(array, entries, index) {
        Ok(sizes) => show_made(
            rt,
            &View {
                array,
                entries,
                index,
                sizes,
            },
        ),
        Err(refusal) => show_refused(rt, array, entries, index, refusal),
    }
}

// A store as it stands in the input, where its index has 64-bit words too.
#[derive(Clone, Copy)]
struct Stored<'a> {
    array: &'a [u64],
    entries: &'a [u64],
    index: &'a [u64],
    sizes: Record,
}

// What a record asks for.
#[derive(Clone, Copy)]
enum Task<'a> {
    Check(Stored<'a>),
    // in slices of these lengths
    Fresh {
        array: usize,
        entries: usize,
        index: usize,
    },
    Unknown,
}

// The store at the start of the input: three lengths, the record's three numbers, and the words of the three slices. What follows it is
// answered beside it; none, where the input ends within it.
fn read_store(words: &[u64]) -> Option<(Stored<'_>, &[u64])>
    ensures parts { IfSome result (λ r. ReadsStore words.now r.0 r.1.now) }
    ensures within { IfSome result (λ r. (length r.0.index.now ≤ length words.now) × (length r.1.now ≤ length words.now)) }
{
    let (&[array, entries, index, size, allowance, count], rest) = words.split_first_chunk::<6>()?;
    let (array, rest) = rest.split_at_checked(array as usize)?;
    let (entries, rest) = rest.split_at_checked(entries as usize)?;
    let (index, rest) = rest.split_at_checked(index as usize)?;
    let sizes = Record {
        size: size as usize,
        allowance: allowance as usize,
        count: count as usize,
    };
    Some((
        Stored {
            array,
            entries,
            index,
            sizes,
        },
        rest,
    ))
}

// The record at the start of the input: its kind and what belongs to it; of an unknown kind, the kind alone. What follows it is answered
// likewise.
fn read_task(words: &[u64]) -> Option<(Task<'_>, &[u64])>
    ensures within { IfSome result (λ r. index_words r.0 ≤ length words.now) }
    ensures further { IfSome result (λ r. length r.1.now < length words.now) }
{
    let (kind, rest) = words.split_first()?;
    match kind {
        1 => {
            let (stored, rest) = read_store(rest)?;
            Some((Task::Check(stored), rest))
        }
        2 => {
            let (&[array, entries, index], rest) = rest.split_first_chunk::<3>()?;
            let task = Task::Fresh {
                array: array as usize,
                entries: entries as usize,
                index: index as usize,
            };
            Some((task, rest))
        }
        _ => Some((Task::Unknown, rest)),
    }
}

fn check(rt: &impl Print, stored: Stored) -> io::Result<()>
    requires { length stored.index.now ≤ word_room }
{
    let Stored {
        array,
        entries,
        index,
        sizes,
    } = stored;
    let mut index_words: [Word; console::ROOM] = lent::room();
    read_index(index, &mut index_words);
    let index = &index_words[..index.len()];
    console::show_check(
        rt,
        &View {
            array,
            entries,
            index,
            sizes,
        },
    )
}

// The lengths are tested before there is room, which takes longer to make than all the rest.
fn fresh(rt: &impl Print, array: usize, entries: usize, index: usize) -> io::Result<()> {
    if console::ROOM < array || console::ROOM < entries || console::ROOM < index {
        return println!(rt; "fresh too long");
    }
    fresh_in_room(rt, array, entries, index)
}

fn fresh_in_room(rt: &impl Print, array: usize, entries: usize, index: usize) -> io::Result<()>
    requires { (array ≤ word_room) × (entries ≤ word_room) × (index ≤ word_room) }
{
    let mut array_words: [u64; console::ROOM] = lent::room();
    let mut entry_words: [u64; console::ROOM] = lent::room();
    let mut index_words: [Word; console::ROOM] = lent::room();
    show_fresh(
        rt,
        &mut array_words[..array],
        &mut entry_words[..entries],
        &mut index_words[..index],
    )
}

fn perform(rt: &impl Print, task: Task) -> io::Result<()>
    requires { index_words task ≤ word_room }
{
    match task {
        Task::Check(stored) => check(rt, stored),
        Task::Fresh {
            array,
            entries,
            index,
        } => fresh(rt, array, entries, index),
        Task::Unknown => println!(rt; "unknown"),
    }
}

fn run(rt: &impl Print, mut words: &[u64]) -> io::Result<()>
    requires { length words.now ≤ word_room }
{
    while !words.is_empty() {
        let Some((next, rest)) = read_task(words) else {
            console::cut(rt, words)?;
            break;
        };
        perform(rt, next)?;
        words = rest;
    }
    Ok(())
}

fn main(rt: HostRuntime) -> io::Result<()> {
    let mut words: [u64; console::ROOM] = lent::room();
    let count = console::read_input(&rt, &mut words)?;
    run(&rt, &words[..count])
}
