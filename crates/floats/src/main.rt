// Puts float bit patterns through the canonical key, and writes a line for each: the pattern, its key or why it has none, the key's
// array index, and that index's class. What the lines must be is worked out apart from this code: tests/floats. An error is that of a write,
// and ends the run.
#![tactic(auto)]

use std::io;
use value::{Value, Words};

const PATTERNS: [u64; 77] = [
    // Zeros, halves, small whole numbers.
    0x0000_0000_0000_0000,
    0x8000_0000_0000_0000,
    0x3fe0_0000_0000_0000,
    0xbfe0_0000_0000_0000,
    0x3ff0_0000_0000_0000,
    0xbff0_0000_0000_0000,
    0x3ff8_0000_0000_0000,
    0xbff8_0000_0000_0000,
    0x4000_0000_0000_0000,
    0xc000_0000_0000_0000,
    0x4008_0000_0000_0000,
    0x4097_2000_0000_0000,
    0x4097_2200_0000_0000,
    0xc097_2000_0000_0000,
    0x40f0_0000_0000_0000,
    0x40f0_0010_0000_0000,
    // The floats next to 1.
    0x3fef_ffff_ffff_ffff,
    0x3ff0_0000_0000_0001,
    0xbff0_0000_0000_0001,
    // Below, at and above 2^52, of both signs.
    0x432f_ffff_ffff_ffff,
    0x4330_0000_0000_0000,
    0x4330_0000_0000_0001,
    0xc32f_ffff_ffff_ffff,
    0xc330_0000_0000_0000,
    0xc330_0000_0000_0001,
    // Below, at and above 2^53, of both signs.
    0x433f_ffff_ffff_ffff,
    0x4340_0000_0000_0000,
    0x4340_0000_0000_0001,
    0xc33f_ffff_ffff_ffff,
    0xc340_0000_0000_0000,
    0xc340_0000_0000_0001,
    // Below, at and above 2^62, of both signs.
    0x43cf_ffff_ffff_ffff,
    0x43d0_0000_0000_0000,
    0x43d0_0000_0000_0001,
    0xc3cf_ffff_ffff_ffff,
    0xc3d0_0000_0000_0000,
    0xc3d0_0000_0000_0001,
    // Below, at and above 2^63, of both signs.
    0x43df_ffff_ffff_ffff,
    0x43e0_0000_0000_0000,
    0x43e0_0000_0000_0001,
    0xc3df_ffff_ffff_ffff,
    0xc3e0_0000_0000_0000,
    0xc3e0_0000_0000_0001,
    // Below, at and above 2^64, of both signs.
    0x43ef_ffff_ffff_ffff,
    0x43f0_0000_0000_0000,
    0x43f0_0000_0000_0001,
    0xc3ef_ffff_ffff_ffff,
    0xc3f0_0000_0000_0000,
    0xc3f0_0000_0000_0001,
    // Other whole numbers and fractions: 2^32, 1e15, 1e15 + 0.5, 2^51 + 0.5, 0.1, pi, 1e300 of both signs, 2^1023.
    0x41f0_0000_0000_0000,
    0x430c_6bf5_2634_0000,
    0x430c_6bf5_2634_0004,
    0x4320_0000_0000_0001,
    0x3fb9_9999_9999_999a,
    0x4009_21fb_5444_2d18,
    0x7e37_e43c_8800_759c,
    0xfe37_e43c_8800_759c,
    0x7fe0_0000_0000_0000,
    // Smallest and largest subnormals, smallest normal, largest finite, infinities, of both signs.
    0x0000_0000_0000_0001,
    0x8000_0000_0000_0001,
    0x000f_ffff_ffff_ffff,
    0x800f_ffff_ffff_ffff,
    0x0010_0000_0000_0000,
    0x8010_0000_0000_0000,
    0x7fef_ffff_ffff_ffff,
    0xffef_ffff_ffff_ffff,
    0x7ff0_0000_0000_0000,
    0xfff0_0000_0000_0000,
    // NaNs: quiet, signalling, negative, with other digits.
    0x7ff8_0000_0000_0000,
    0xfff8_0000_0000_0000,
    0x7ff0_0000_0000_0001,
    0xfff0_0000_0000_0001,
    0x7ff7_ffff_ffff_ffff,
    0x7ff8_0000_0000_0001,
    0x7ffc_dead_beef_cafe,
    0x7fff_ffff_ffff_ffff,
    0xffff_ffff_ffff_ffff,
];

fn show_index(rt: &impl Print, key: Words) -> io::Result<()> {
    match key::array_index(key) {
        Some(index) => {
            let class = key::highest_bit(index);
            print!(rt; " index {index:016x} class {class}")
        }
        None => print!(rt; " index none"),
    }
}

fn show_key(rt: &impl Print, key: Words) -> io::Result<()> {
    let kind = match Value::or_nil(key) {
        Value::Integer(_) => "Integer",
        Value::Number(_) => "Number",
        _ => "neither",
    };
    print!(rt; " {kind} {:016x}", key.payload)?;
    show_index(rt, key)
}

fn show(rt: &impl Print, pattern: u64) -> io::Result<()> {
    print!(rt; "{pattern:016x}")?;
    match key::canonical_key(Words::new(3, pattern)) {
        Ok(key) => show_key(rt, key)?,
        Err(refusal) => print!(rt; " refused {}", u8::from(refusal))?,
    }
    println!(rt; "")
}

fn main(rt: HostRuntime) -> io::Result<()> {
    for pattern in PATTERNS {
        show(&rt, pattern)?;
    }
    Ok(())
}
