// Keys (the original's CanonicalKey, f64_to_i64, to_array_index and highest_bit), on stored words.
// Every public call is total: a key that has no canonical form is answered with its refusal.
#![tactic(auto)]

ghost use Rattle.std.specs.Prelude.{◌≡◌, ◌≤◌, ◌<◌, ◌^◌};
ghost use Rattle.std.specs.Float.{binary64};
ghost use Rattle.std.specs.Float.Ieee.{of_bits, of_fields, size};
ghost use Rattle.key.specs.Canonical.{whole_of, whole_key, number_key, canonical_key, array_index};

use value::{Refusal, Words};

fn power(k: u64) -> u64
    requires { k < 64 }
    ensures { result ≡ 2 ^ k }
{
    1u64 << k
}

// Whether a float is a whole number of size at most 2^63: its sign and its size, worked out from the sign, the exponent's field and the
// digits' field.
fn whole_of_fields(negative: bool, exponent: u64, digits: u64) -> Option<(bool, u64)>
    requires { digits < 2 ^ 52 }
    ensures { result ≡ whole_of (of_fields binary64 negative exponent digits) }
{
    if exponent < 1023 {
        if exponent == 0 && digits == 0 {
            return Some((negative, 0));
        }
        return None;
    }
    if exponent > 1086 {
        return None;
    }
    let all = 0x10_0000_0000_0000 + digits;
    if exponent < 1075 {
        let unit = power(1075 - exponent);
        if all % unit == 0 {
            return Some((negative, all / unit));
        }
        return None;
    }
    let n = all * power(exponent - 1075);
    if n > 0x8000_0000_0000_0000 {
        return None;
    }
    Some((negative, n))
}

fn whole_of_bits(bits: u64) -> Option<(bool, u64)>
    ensures { result ≡ whole_of (of_bits binary64 bits) }
{
    whole_of_fields(
        bits >= 0x8000_0000_0000_0000,
        bits % 0x8000_0000_0000_0000 / 0x10_0000_0000_0000,
        bits % 0x10_0000_0000_0000,
    )
}

// The key of a Number that is a whole number.
fn whole_key(negative: bool, size: u64) -> Words
    requires { size ≤ 2 ^ 63 }
    ensures { result ≡ whole_key negative size }
{
    if negative {
        return Words::new(2, size.wrapping_neg());
    }
    if size == 0x8000_0000_0000_0000 {
        return Words::new(2, 0x7fff_ffff_ffff_ffff);
    }
    Words::new(2, size)
}

fn number_key(bits: u64) -> Result<Words, Refusal>
    ensures { result ≡ number_key bits }
{
    if value::is_nan(bits) {
        return Err(Refusal::KeyIsNan);
    }
    match whole_of_bits(bits) {
        Some((negative, size)) => Ok(whole_key(negative, size)),
        None => Ok(Words::new(3, bits)),
    }
}

pub fn canonical_key(key: Words) -> Result<Words, Refusal>
    ensures { result ≡ canonical_key key }
{
    match key.kind {
        0 => Err(Refusal::KeyIsNil),
        3 => number_key(key.payload),
        _ => Ok(key),
    }
}

pub fn array_index(key: Words) -> Option<u64>
    ensures { result ≡ array_index key }
{
    if key.kind != 2 {
        return None;
    }
    if 0 < key.payload && key.payload < 0x8000_0000_0000_0000 {
        return Some(key.payload - 1);
    }
    None
}

// The class of an index: its count of significant bits.
pub fn highest_bit(index: u64) -> u32
    ensures { result ≡ size index }
{
    64 - index.leading_zeros()
}
