// What the programs over stores share: room for input and for slices, the little-endian words of the input, and what they write of a store.
// An error is that of a write.
#![tactic(auto)]

ghost use Rattle.std.specs.Prelude.{◌≡◌, ◌+◌, ◌*◌, ◌/◌, ◌≤◌, length, take, IfOk, OnErr};
ghost use Rattle.std.specs.Io.KnownBytes.{Consumes};
ghost use Rattle.console.specs.Input.{byte_room, word_at, Holds};

use std::io;
use std::io::Read;
use store::{Record, View};

// Room for bytes of input; and for words of a slice, past the limits of lent room and past what the input can hold. The same numbers
// stand in specs/Input.antt.
const BYTES: usize = 524288;

pub const ROOM: usize = 131080;

// The whole words of the input, and how many there are.
// The place of each is counted: iter_mut zipped with the chunks has no law yet that says what the words then are.
fn read_words(bytes: &[u8], words: &mut [u64]) -> usize
    requires { length bytes.now ≤ 8 * length words.old }
    ensures { (result ≡ length bytes.now / 8) × Holds (λ i. word_at bytes.now (8 * i)) result words.new }
{
    let (chunks, _) = bytes.as_chunks::<8>();
    for (i, chunk) in chunks.iter().enumerate() {
        words[i] = u64::from_le_bytes(*chunk);
    }
    chunks.len()
}

// Reads until the room is full, the input ends or a read fails, which counts as its end, and answers how many bytes came.
// A loop of its own: of a read that fails std's read_exact and read_to_end promise too little.
pub fn read_full<R: Read>(input: &mut R, room: &mut [u8]) -> usize
    ensures within { result ≤ length room.new }
    ensures bytes { Consumes (R.remaining input.old) (R.remaining input.new) (take result room.new) }
{
    let mut done = 0;
    while done < room.len() {
        let n = input.read(&mut room[done..]).unwrap_or(0);
        if n == 0 {
            break;
        }
        done += n;
    }
    done
}

// Standard input as words, and how many there are. Input that there is no room for, or of no whole number of words, is told, and counts as
// empty. An error is that of a write, and leaves the words as they were.
pub fn read_input(rt: &(impl Input + Print), words: &mut [u64]) -> io::Result<usize>
    requires { byte_room ≤ 8 * length words.old }
    ensures ok { IfOk result (λ n. n ≤ length words.old) }
    ensures err { OnErr result (words.new ≡ words.old) }
{
    let mut bytes: [u8; BYTES] = lent::room();
    let n = read_full(&mut rt.reader(), &mut bytes);
    if n == BYTES {
        println!(rt; "too long")?;
        return Ok(0);
    }
    if n % 8 != 0 {
        println!(rt; "cut")?;
        return Ok(0);
    }
    Ok(read_words(&bytes[..n], words))
}

// Input that ends within a record ends the run.
pub fn cut(rt: &impl Print, words: &[u64]) -> io::Result<usize>
    ensures { IfOk result (λ n. n ≡ length words.now) }
{
    println!(rt; "cut")?;
    Ok(words.len())
}

// Each number of a line is a write of its own: where a write fails, what came before it has gone out.
pub fn show_number(rt: &impl Print, n: u64) -> io::Result<()> {
    print!(rt; " {n}")
}

// A, M and E.
pub fn show_sizes(rt: &impl Print, sizes: Record) -> io::Result<()> {
    show_number(rt, sizes.size as u64)?;
    show_number(rt, sizes.allowance as u64)?;
    show_number(rt, sizes.count as u64)
}

// What the check says, which ends the line.
pub fn show_check(rt: &impl Print, view: &View) -> io::Result<()> {
    let word = if store::check(view) {
        "sound"
    } else {
        "unsound"
    };
    println!(rt; "{word}")
}
