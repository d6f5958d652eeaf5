// What the program `limits` writes of a call and of what it answers, a line for each call, and each call performed so: written down, made and
// answered. An error is that of a write; the slices are then as the call left them, or as they were where it was not made yet. Assumes nothing.
#![tactic(auto)]

use index::Word;
use reads::Next;
use std::io;
use store::{Record, View};
use value::{Refusal, Value, Words};

// Each number of a line is a write of its own, as in `console`.
fn show_words(rt: &impl Print, words: Words) -> io::Result<()> {
    console::show_number(rt, words.kind)?;
    console::show_number(rt, words.payload)
}

fn end_line(rt: &impl Print) -> io::Result<()> {
    println!(rt; "")
}

// The number of an answer: 0, or a refusal's.
fn show_answered(rt: &impl Print, number: u8) -> io::Result<()> {
    print!(rt; ":")?;
    console::show_number(rt, u64::from(number))
}

// The end of a line, where a call that reads was refused.
fn show_refusal(rt: &impl Print, refusal: Refusal) -> io::Result<()> {
    show_answered(rt, u8::from(refusal))?;
    end_line(rt)
}

// The record after a call, which ends the line and is answered, since the next call is passed it.
fn show_after(rt: &impl Print, after: Record) -> io::Result<Record> {
    print!(rt; ",")?;
    console::show_sizes(rt, after)?;
    end_line(rt)?;
    Ok(after)
}

// The end of a line: the number of an answer, and the record after the call.
fn show_outcome<T>(
    rt: &impl Print,
    outcome: &Result<T, Refusal>,
    after: Record,
) -> io::Result<Record> {
    show_answered(rt, value::answer_number(outcome))?;
    show_after(rt, after)
}

// The end of a line: of a call that reads, what it answers.
fn show_read(rt: &impl Print, words: &[Words]) -> io::Result<()> {
    show_answered(rt, 0)?;
    for one in words {
        show_words(rt, *one)?;
    }
    end_line(rt)
}

pub fn call_get(rt: &impl Print, view: &View, key: Words) -> io::Result<()> {
    print!(rt; "get")?;
    show_words(rt, key)?;
    match table::get(view, Value::or_nil(key)) {
        Ok(v) => show_read(rt, &[Words::from(v)]),
        Err(refusal) => show_refusal(rt, refusal),
    }
}

pub fn call_next(rt: &impl Print, view: &View, key: Words) -> io::Result<()> {
    print!(rt; "next")?;
    show_words(rt, key)?;
    match table::next(view, Value::or_nil(key)) {
        Ok(Next::Found(k, v)) => show_read(rt, &[Words::from(k), Words::from(v)]),
        Ok(Next::Last) => {
            print!(rt; ": 0 last")?;
            end_line(rt)
        }
        Ok(Next::NotFound) => {
            print!(rt; ": 0 not found")?;
            end_line(rt)
        }
        Err(refusal) => show_refusal(rt, refusal),
    }
}

pub fn call_length(rt: &impl Print, view: &View) -> io::Result<()> {
    print!(rt; "length")?;
    match reads::length(view) {
        Ok(n) => {
            show_answered(rt, 0)?;
            console::show_number(rt, n)?;
            end_line(rt)
        }
        Err(refusal) => show_refusal(rt, refusal),
    }
}

pub fn call_walk(rt: &impl Print, view: &View, most: u64) -> io::Result<()> {
    print!(rt; "walk")?;
    console::show_number(rt, most)?;
    match calls::walk(view, most) {
        Some(walk) => {
            show_answered(rt, 0)?;
            console::show_number(rt, walk.pairs)?;
            console::show_number(rt, walk.digest.sum)?;
        }
        None => print!(rt; ": astray")?,
    }
    end_line(rt)
}

// The digest of all lent words, and what the check says.
pub fn call_check(rt: &impl Print, view: &View) -> io::Result<()> {
    print!(rt; "check: {} ", calls::digest_store(view).sum)?;
    console::show_check(rt, view)
}

pub fn call_set(
    rt: &impl Print,
    array: &mut [u64],
    entries: &mut [u64],
    index: &mut [Word],
    sizes: Record,
    key: Words,
    v: Words,
) -> io::Result<Record> {
    print!(rt; "set")?;
    show_words(rt, key)?;
    show_words(rt, v)?;
    match table::set(
        array,
        entries,
        index,
        sizes,
        Value::or_nil(key),
        Value::or_nil(v),
    ) {
        Ok((previous, after)) => {
            show_answered(rt, 0)?;
            show_words(rt, Words::from(previous))?;
            show_after(rt, after)
        }
        Err(refusal) => {
            show_answered(rt, u8::from(refusal))?;
            show_after(rt, sizes)
        }
    }
}

pub fn call_reserve(
    rt: &impl Print,
    array: &mut [u64],
    entries: &mut [u64],
    index: &mut [Word],
    sizes: Record,
    n: u64,
) -> io::Result<Record> {
    print!(rt; "reserve")?;
    console::show_number(rt, n)?;
    let reserved = writes::reserve(array, entries, index, sizes, n as usize);
    show_outcome(rt, &reserved, reserved.unwrap_or(sizes))
}

pub fn call_fill(
    rt: &impl Print,
    array: &mut [u64],
    entries: &mut [u64],
    index: &mut [Word],
    sizes: Record,
    first: Words,
    end: u64,
) -> io::Result<Record> {
    print!(rt; "fill")?;
    show_words(rt, first)?;
    console::show_number(rt, end)?;
    let (after, outcome) = calls::fill(array, entries, index, sizes, first, end);
    show_outcome(rt, &outcome, after)
}

// The record that the next call is passed.
pub fn call_record(rt: &impl Print, sizes: Record) -> io::Result<Record> {
    print!(rt; "record")?;
    show_after(rt, sizes)
}

// A fresh store in these slices; its sequence has a number.
pub fn call_fresh(
    rt: &impl Print,
    array: &mut [u64],
    entries: &mut [u64],
    index: &mut [Word],
    number: u64,
) -> io::Result<Record> {
    println!(rt; "sequence {number}")?;
    print!(rt; "fresh")?;
    console::show_number(rt, array.len() as u64)?;
    console::show_number(rt, entries.len() as u64)?;
    console::show_number(rt, index.len() as u64)?;
    let made = store::fresh(array, entries, index);
    show_outcome(rt, &made, made.unwrap_or(Record::FRESH))
}
