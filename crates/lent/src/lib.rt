// Values in lent words, two words a value: read, tested, written, and set to 0. And room, which a program lends.
// An inner layer: what is read must lie in the slice, which a right shape gives. Of the words nothing is assumed.
#![tactic(auto)]

ghost use Rattle.std.specs.Prelude.{◌≡◌, ◌+◌, ◌*◌, ◌<◌, ◌≤◌, length, replicate};
ghost use Rattle.value.specs.Encoding.{decodes};
ghost use Rattle.lent.specs.Says.{Says};
ghost use Rattle.lent.specs.Lent.{value_at, key_at, AllDecode, ZeroFrom, put_value, put_entry};

use value::{Value, Words};

pub fn value_at(words: &[u64], i: usize) -> Words
    requires { 2 * i + 2 ≤ length words.now }
    ensures { result ≡ value_at words.now i }
{
    let at = 2 * i;
    Words::new(words[at], words[at + 1])
}

#[tactic(auto, unfolding(value::specs::Encoding::decodes))]
pub fn decodable(w: Words) -> bool
    ensures { result ≡ decodes w }
{
    Value::try_from(w).is_ok()
}

// Whether all values decode, the unused ones too.
pub fn all_decode(words: &[u64]) -> bool
    ensures { Says result (AllDecode words.now) }
{
    (0..words.len() / 2).all(|i| decodable(value_at(words, i)))
}

// Whether all words from a place on are 0.
pub fn all_zero(words: &[u64], from: usize) -> bool
    ensures { Says result (ZeroFrom from words.now) }
{
    words.iter().skip(from).all(|w| *w == 0)
}

// The value at a place is written over; the answer is the one that was there.
#[tactic(auto, unfolding(crate::specs::Lent::put_value))]
pub fn put_value(words: &mut [u64], i: usize, v: Words) -> Words
    requires { 2 * i + 2 ≤ length words.old }
    ensures previous { result ≡ value_at words.old i }
    ensures words { words.new ≡ put_value words.old i v }
{
    let previous = value_at(words, i);
    let at = 2 * i;
    words[at] = v.kind;
    words[at + 1] = v.payload;
    previous
}

#[tactic(auto, unfolding(crate::specs::Lent::put_entry))]
pub fn put_entry(words: &mut [u64], i: usize, key: Words, v: Words)
    requires { 4 * i + 4 ≤ length words.old }
    ensures { words.new ≡ put_entry words.old i key v }
{
    put_value(words, 2 * i, key);
    put_value(words, 2 * i + 1, v);
}

// The contract gives only the length, which lending a part needs.
pub fn room<T: Copy + Default, const N: usize>() -> [T; N]
    ensures { length result ≡ N }
{
    [T::default(); N]
}

// The entries in use: the first `count` of these words, four an entry: its key's two, and its value's.
#[derive(Clone, Copy)]
pub struct Entries<'a> {
    pub words: &'a [u64],
    pub count: usize,
    ghost fits: { 4 * count ≤ length words.now },
}

impl Entries<'_> {
    pub fn key(&self, i: usize) -> Words
        requires { i < self.now.count }
        ensures { result ≡ key_at self.now.words.now i }
    {
        value_at(self.words, 2 * i)
    }

    pub fn value(&self, i: usize) -> Words
        requires { i < self.now.count }
        ensures { result ≡ value_at self.now.words.now (2 * i + 1) }
    {
        value_at(self.words, 2 * i + 1)
    }
}
