// Replays stored traces. The arguments are pairs: how to compare, `exactly` or `sets`, and a file of traces with their answers, which
// tests/replay makes. Of each file a line is written: how many traces it has, and how many are answered otherwise. An error is that of a
// write, and ends the run.
#![tactic(auto)]

ghost use Rattle.std.specs.Prelude.{◌≡◌, ◌+◌, ◌<◌, ◌≤◌, length, IfSome, IfNone};
ghost use Rattle.replay.specs.Numbers.{modulus};

use index::Word;
use std::env::FillError;
use std::fs::File;
use std::rt::{Env, Files};
use std::{io, str};

// The most bytes of a file and of a trace's input that tests/replay makes, and room for the output of such a trace: three times the input and
// one longest reply, since a reply has at most three times its request's bytes (session's `Waits`). The same numbers stand in
// specs/Numbers.antt.
const FILE: usize = 393216;

const INPUT: usize = 65536;

const OUTPUT: usize = 3 * INPUT + replies::LONGEST;

const NEXT_REPLY: u64 = 260;

// A prime below 2^55, so that 256 times a number below it fits in a word.
const MODULUS: u64 = 36028797018963913;

// How replies are compared: byte by byte, or those of a walk as a set.
#[derive(Clone, Copy)]
enum Method {
    Exactly,
    Sets,
}

impl From<&[u8]> for Method {
    fn from(word: &[u8]) -> Method {
        if word == b"sets".as_slice() {
            Method::Sets
        } else {
            Method::Exactly
        }
    }
}

impl Method {
    fn same(self, ours: &[u8], stored: &[u8]) -> bool {
        match self {
            Method::Exactly => ours == stored,
            Method::Sets => same_as_sets(ours, stored),
        }
    }
}

// A reply: its kind, and its bytes as one number, modulo the prime.
#[derive(Clone, Copy)]
struct Part {
    kind: u64,
    digest: u64,
}

#[derive(Clone, Copy)]
struct Tally {
    traces: u64,
    otherwise: u64,
}

fn digest_of(bytes: &[u8]) -> u64
    ensures { result < modulus }
{
    let mut n = 1u64;
    for byte in bytes {
        n = (256 * n + u64::from(*byte)) % MODULUS;
    }
    n
}

// The reply at the start, and what follows it. Bytes that are no whole reply count as one of kind 0, up to the end.
fn split_reply(bytes: &[u8]) -> Option<(Part, &[u8])>
    ensures part { IfSome result (λ r. (r.0.digest < modulus) × (length r.1.now < length bytes.now)) }
    ensures none { IfNone result (length bytes.now ≡ 0) }
{
    if bytes.is_empty() {
        return None;
    }
    if bytes.len() < 4 || bytes.len() < records::record_size(bytes) {
        return Some((Part { kind: 0, digest: 0 }, &[]));
    }
    let (reply, rest) = bytes.split_at(records::record_size(bytes));
    let part = Part {
        kind: records::number(&bytes[2..4]),
        digest: digest_of(reply),
    };
    Some((part, rest))
}

// Reply by reply, but of replies of `next` only the sum counts, up to the next reply of another kind: a walk is compared as a set.
fn same_as_sets(mut ours: &[u8], mut stored: &[u8]) -> bool {
    let mut owed = 0;
    while let Some((own, ours_left)) = split_reply(ours) {
        let Some((wanted, stored_left)) = split_reply(stored) else {
            return false;
        };
        if own.kind != wanted.kind {
            return false;
        }
        if own.kind == NEXT_REPLY {
            owed = (owed + own.digest + (MODULUS - wanted.digest)) % MODULUS;
        } else if owed != 0 || own.digest != wanted.digest {
            return false;
        }
        ours = ours_left;
        stored = stored_left;
    }
    owed == 0 && stored.is_empty()
}

// On a fresh store, as the trace program would.
fn is_answered(input: &[u8], stored: &[u8], method: Method) -> bool {
    let mut array: [u64; session::ARRAY] = lent::room();
    let mut entries: [u64; session::ENTRIES] = lent::room();
    let mut index: [Word; session::INDEX] = lent::room();
    let mut output: [u8; OUTPUT] = lent::room();
    let sizes = session::begin(&mut array, &mut entries, &mut index);
    let done = session::serve(
        &mut array,
        &mut entries,
        &mut index,
        sizes,
        input,
        true,
        &mut output,
    );
    method.same(&output[..done.made], stored)
}

// The part at the start, a 32-bit length and as many bytes or those that there are, and what follows it.
fn split_part(file: &[u8]) -> Option<(&[u8], &[u8])>
    ensures part { IfSome result (λ p. length p.0.now + length p.1.now + 4 ≡ length file.now) }
    ensures none { IfNone result (length file.now < 4) }
{
    let (size, rest) = file.split_first_chunk()?;
    let size = u32::from_le_bytes(*size) as usize;
    Some(rest.split_at(size.min(rest.len())))
}

// The trace at the start, its input and its answers, and what follows it.
fn split_trace(file: &[u8]) -> Option<(&[u8], &[u8], &[u8])>
    ensures { IfSome result (λ t. length t.2.now < length file.now) }
{
    let (input, rest) = split_part(file)?;
    let (stored, rest) = split_part(rest)?;
    Some((input, stored, rest))
}

// A file that ends within a trace has one that is answered otherwise.
fn replay(file: &[u8], method: Method) -> Tally {
    let mut rest = file;
    let mut tally = Tally {
        traces: 0,
        otherwise: 0,
    };
    while let Some((input, stored, after)) = split_trace(rest) {
        tally.traces += 1;
        if !is_answered(input, stored, method) {
            tally.otherwise += 1;
        }
        rest = after;
    }
    if !rest.is_empty() {
        tally.otherwise += 1;
    }
    tally
}

fn show(rt: &impl Print, name: &[u8], tally: Tally) -> io::Result<()> {
    let traces = tally.traces;
    let otherwise = tally.otherwise;
    rt.write_all(name)?;
    println!(rt; ": {traces} traces, {otherwise} answered otherwise")
}

// A file that does not open is told on standard error; nor does one whose name is no text, since std opens by text.
fn replay_file(rt: &(impl Files + Print + Eprint), name: &[u8], method: Method) -> io::Result<()> {
    let Ok(text) = str::from_utf8(name) else {
        return eprintln!(rt; "a file's name is no text");
    };
    let mut file = match File::open(rt, text) {
        Ok(file) => file,
        Err(error) => return eprintln!(rt; "{text}: {error}"),
    };
    let mut bytes: [u8; FILE] = lent::room();
    let n = console::read_full(&mut file, &mut bytes);
    show(rt, name, replay(&bytes[..n], method))
}

// The argument with this number, at the front of the room, and how long it is; one that there is no room for counts as empty.
fn argument(rt: &impl Env, number: usize, room: &mut [u8]) -> Option<usize>
    ensures { IfSome result (λ n. n ≤ length room.new) }
{
    match rt.arg(number, room) {
        Ok(n) => Some(n),
        Err(FillError::TooLong) => Some(0),
        Err(FillError::NotPresent) => None,
    }
}

// Pair after pair, until an argument is missing. A name that is missing counts as empty.
fn main(rt: HostRuntime) -> io::Result<()> {
    let mut word = [0u8; 16];
    let mut path = [0u8; 64];
    for pair in 0..usize::MAX / 2 {
        let Some(m) = argument(&rt, 2 * pair + 1, &mut word) else {
            break;
        };
        let n = argument(&rt, 2 * pair + 2, &mut path).unwrap_or(0);
        replay_file(&rt, &path[..n], Method::from(&word[..m]))?;
    }
    Ok(())
}
