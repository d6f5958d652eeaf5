// Lua values (the original's value.rs) and the two 64-bit words that store one: its kind and its payload.
// Every call is total. A Value that decode never makes has words all the same: encode settles what it stands for.
#![tactic(auto)]

ghost use Rattle.std.specs.Prelude.{◌≡◌};
ghost use Rattle.std.specs.Float.{binary64};
ghost use Rattle.std.specs.Float.Ieee.{to_bits, nan_bits};
ghost use Rattle.value.specs.Encoding.{words, function_kind, function_handle, encoded, number_of, decoded, value_of};
ghost use Rattle.value.specs.Same.{is_nil};

mod refusal;

pub use refusal::{Refusal, answer_number};
use std::fmt;

// Kinds 4 to 9 carry a handle of the host's.
#[derive(Clone, Copy)]
pub enum Function {
    Closure(u64),
    Callback(u64),
}

// An f64 keeps no NaN's bits, so a NaN has a case of its own.
#[derive(Clone, Copy)]
pub enum Value {
    Nil,
    Boolean(bool),
    Integer(i64),
    Number(f64),
    NaN(u64),
    String(u64),
    Table(u64),
    Function(Function),
    Thread(u64),
    UserData(u64),
}

// A value as it is stored.
#[derive(Clone, Copy, Debug, PartialEq, Eq)]
pub struct Words {
    pub kind: u64,
    pub payload: u64,
}

impl Words {
    pub const NIL: Words = Words {
        kind: 0,
        payload: 0,
    };

    pub fn new(kind: u64, payload: u64) -> Words
        ensures { result ≡ words kind payload }
    {
        Words { kind, payload }
    }

    #[tactic(auto, unfolding(crate::specs::Same::same))]
    pub fn is_nil(self) -> bool
        ensures { result ≡ is_nil self }
    {
        self == Words::NIL
    }
}

// Its kind and its payload.
impl fmt::Display for Words {
    fn fmt<W: fmt::Write>(&self, f: &mut fmt::Formatter<W>) -> fmt::Result {
        write!(f, "{} {}", self.kind, self.payload)
    }
}

// The bits of a float. A NaN has many patterns: the quiet one with no other digit stands for it.
fn float_word(x: f64) -> u64
    ensures { result ≡ to_bits binary64 x }
{
    if x.is_nan() {
        0x7ff8_0000_0000_0000
    } else {
        x.to_bits()
    }
}

// Whether the bits are a NaN's: without the sign, they are above an infinity's.
pub fn is_nan(bits: u64) -> bool
    ensures { result ≡ nan_bits binary64 bits }
{
    bits % 0x8000_0000_0000_0000 > 0x7ff0_0000_0000_0000
}

impl From<Function> for Words {
    ghost from_gives = { λ f w. w ≡ words (function_kind f) (function_handle f) };

    fn from(f: Function) -> Words {
        match f {
            Function::Closure(h) => Words::new(6, h),
            Function::Callback(h) => Words::new(7, h),
        }
    }
}

impl From<Value> for Words {
    ghost from_gives = { λ v w. w ≡ encoded v };

    fn from(v: Value) -> Words {
        match v {
            Value::Nil => Words::NIL,
            Value::Boolean(b) => Words::new(1, u64::from(b)),
            Value::Integer(n) => Words::new(2, n.cast_unsigned()),
            Value::Number(x) => Words::new(3, float_word(x)),
            Value::NaN(bits) => Words::new(3, bits),
            Value::String(h) => Words::new(4, h),
            Value::Table(h) => Words::new(5, h),
            Value::Function(f) => Words::from(f),
            Value::Thread(h) => Words::new(8, h),
            Value::UserData(h) => Words::new(9, h),
        }
    }
}

fn decode_number(bits: u64) -> Value
    ensures { result ≡ number_of bits }
{
    if is_nan(bits) {
        Value::NaN(bits)
    } else {
        Value::Number(f64::from_bits(bits))
    }
}

impl TryFrom<Words> for Value {
    type Error = Refusal;

    ghost try_from_gives = { λ w r. r ≡ decoded w };

    fn try_from(w: Words) -> Result<Value, Refusal> {
        let payload = w.payload;
        match (w.kind, payload) {
            (0, 0) => Ok(Value::Nil),
            (1, 0) => Ok(Value::Boolean(false)),
            (1, 1) => Ok(Value::Boolean(true)),
            (2, _) => Ok(Value::Integer(payload.cast_signed())),
            (3, _) => Ok(decode_number(payload)),
            (4, _) => Ok(Value::String(payload)),
            (5, _) => Ok(Value::Table(payload)),
            (6, _) => Ok(Value::Function(Function::Closure(payload))),
            (7, _) => Ok(Value::Function(Function::Callback(payload))),
            (8, _) => Ok(Value::Thread(payload)),
            (9, _) => Ok(Value::UserData(payload)),
            _ => Err(Refusal::NoValue),
        }
    }
}

impl Value {
    // The value that words stand for; Nil where they stand for none, which a sound store never has.
    pub fn or_nil(w: Words) -> Value
        ensures { result ≡ value_of w }
    {
        Value::try_from(w).unwrap_or(Value::Nil)
    }
}
