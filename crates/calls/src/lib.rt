// The calls that a record of `limits` can ask for, read off its words; and what it asks for beside the calls themselves: a whole walk, a row
// of sets, and the digest of all lent words. Of the words nothing is assumed.
#![tactic(auto)]

ghost use Rattle.std.specs.Prelude.{◌^◌, ◌<◌};

use index::Word;
use reads::Next;
use store::{Record, View};
use value::{Refusal, Value, Words};

// A prime, modulo which words are taken into a digest.
const MODULUS: u64 = 2147483647;

// A record of the input: a call, and what is passed to it.
#[derive(Clone, Copy)]
pub enum Call {
    Get(Words),
    Set(Words, Words),
    Length,
    Next(Words),
    Reserve(u64),
    // begins a sequence, which has a number, in slices of these lengths
    Fresh {
        array: usize,
        entries: usize,
        index: usize,
        number: u64,
    },
    // the record that the next call is passed
    Record(Record),
    Check,
    // the first key, and the payload that is past the last
    Fill {
        first: Words,
        end: u64,
    },
    // of at most so many pairs
    Walk(u64),
    Unknown,
}

// The kinds of the trace have its numbers.
impl From<[u64; 5]> for Call {
    fn from([kind, a, b, c, d]: [u64; 5]) -> Call {
        match kind {
            1 => Call::Get(Words::new(a, b)),
            2 => Call::Set(Words::new(a, b), Words::new(c, d)),
            3 => Call::Length,
            4 => Call::Next(Words::new(a, b)),
            5 => Call::Reserve(a),
            6 => Call::Fresh {
                array: a as usize,
                entries: b as usize,
                index: c as usize,
                number: d,
            },
            7 => Call::Record(Record {
                size: a as usize,
                allowance: b as usize,
                count: c as usize,
            }),
            8 => Call::Check,
            9 => Call::Fill {
                first: Words::new(a, b),
                end: c,
            },
            10 => Call::Walk(a),
            _ => Call::Unknown,
        }
    }
}

// A digest goes by every word and by their order.
#[derive(Clone, Copy)]
pub struct Digest {
    pub sum: u64,
    ghost small: { sum < 2 ^ 31 },
}

impl Digest {
    // Of no words.
    fn new() -> Digest {
        Digest { sum: 0 }
    }

    fn with_word(self, word: u64) -> Digest {
        Digest {
            sum: (16807 * self.sum + word % MODULUS) % MODULUS,
        }
    }

    fn with_value(self, v: Value) -> Digest {
        let words = Words::from(v);
        self.with_word(words.kind).with_word(words.payload)
    }

    fn with_words<T: Copy + Into<u64>>(self, words: &[T]) -> Digest {
        words
            .iter()
            .fold(self, |digest, word| digest.with_word((*word).into()))
    }
}

// Of all lent words.
pub fn digest_store(view: &View) -> Digest {
    Digest::new()
        .with_words(view.array)
        .with_words(view.entries)
        .with_words(view.index)
}

// What a whole walk gave.
#[derive(Clone, Copy)]
pub struct WholeWalk {
    pub pairs: u64,
    pub digest: Digest,
}

// The pairs that `next` gives from Nil on, each key passed to it again; none where they do not end as a walk does, or not within so many.
pub fn walk(view: &View, most: u64) -> Option<WholeWalk> {
    let mut key = Value::Nil;
    let mut digest = Digest::new();
    for pairs in 0..most {
        match table::next(view, key).ok()? {
            Next::Found(k, v) => {
                key = k;
                digest = digest.with_value(k).with_value(v);
            }
            Next::Last => return Some(WholeWalk { pairs, digest }),
            Next::NotFound => return None,
        }
    }
    None
}

// Keys of a kind, with payloads from the first's to the one before the end, are each set to the Integer of that payload, up to the first
// that is refused. The record is that of the sets before.
pub fn fill(
    array: &mut [u64],
    entries: &mut [u64],
    index: &mut [Word],
    mut sizes: Record,
    first: Words,
    end: u64,
) -> (Record, Result<(), Refusal>) {
    for n in first.payload..end {
        let key = Value::or_nil(Words::new(first.kind, n));
        let v = Value::Integer(n.cast_signed());
        match table::set(array, entries, index, sizes, key, v) {
            Ok((_, after)) => sizes = after,
            Err(refusal) => return (sizes, Err(refusal)),
        }
    }
    (sizes, Ok(()))
}
