// The records of a trace, read off bytes (01, 'Trace program'): numbers and values, little-endian, and the request at the start of the
// input, or the fault there. Nothing is assumed of the bytes; a number or a value must lie in the slice.
#![tactic(auto)]

ghost use Rattle.std.specs.Prelude.{◌≡◌, ◌+◌, ◌≤◌, length};
ghost use Rattle.value.specs.Encoding.{decodes};
ghost use Rattle.records.specs.Bytes.{number, value_in};
ghost use Rattle.records.specs.Requests.{fault_number, kind_of, body_length, or_undecodable, record_size, is_whole, body_reading, reading};

use value::Words;

#[derive(Clone, Copy)]
pub enum Request {
    Get(Words),
    Set(Words, Words),
    Length,
    Next(Words),
    Reserve(u64),
}

// What is wrong with a record, by its number in a reply. The same numbers stand in specs/Requests.antt.
#[derive(Clone, Copy)]
pub enum Fault {
    Cut = 1,
    UnknownKind = 2,
    WrongLength = 3,
    Undecodable = 4,
}

impl From<Fault> for u8 {
    ghost from_gives = { λ fault n. n ≡ fault_number fault };

    fn from(fault: Fault) -> u8 {
        fault as u8
    }
}

// What a request asks for, by which its body is read.
#[derive(Clone, Copy)]
enum Kind {
    Get,
    Set,
    Length,
    Next,
    Reserve,
}

impl TryFrom<u64> for Kind {
    type Error = Fault;

    ghost try_from_gives = { λ n result. result ≡ kind_of n };

    fn try_from(n: u64) -> Result<Kind, Fault> {
        match n {
            1 => Ok(Kind::Get),
            2 => Ok(Kind::Set),
            3 => Ok(Kind::Length),
            4 => Ok(Kind::Next),
            5 => Ok(Kind::Reserve),
            _ => Err(Fault::UnknownKind),
        }
    }
}

impl Kind {
    // How many bytes follow the kind.
    fn body_length(self) -> usize
        ensures { result ≡ body_length self }
    {
        match self {
            Kind::Get => 9,
            Kind::Set => 18,
            Kind::Length => 0,
            Kind::Next => 9,
            Kind::Reserve => 4,
        }
    }
}

// The number that bytes are, the lowest first.
pub fn number(bytes: &[u8]) -> u64
    requires { length bytes.now ≤ 8 }
    ensures { result ≡ number bytes.now }
{
    let mut word = [0; 8];
    word[..bytes.len()].copy_from_slice(bytes);
    u64::from_le_bytes(word)
}

// A value is its kind byte and 8 payload bytes.
pub fn value_in(bytes: &[u8], at: usize) -> Words
    requires { at + 9 ≤ length bytes.now }
    ensures { result ≡ value_in at bytes.now }
{
    Words {
        kind: u64::from(bytes[at]),
        payload: number(&bytes[at + 1..at + 9]),
    }
}

// How many bytes the record at the start takes.
pub fn record_size(input: &[u8]) -> usize
    requires { 2 ≤ length input.now }
    ensures { result ≡ record_size input.now }
{
    2 + number(&input[..2]) as usize
}

// Whether no further input changes what the record at the start is read as.
#[tactic(auto, unfolding(crate::specs::Requests::is_whole))]
pub fn is_whole(input: &[u8]) -> bool
    ensures { result ≡ is_whole input.now }
{
    if input.len() < 2 {
        return false;
    }
    let size = record_size(input);
    size < 4 || size <= input.len()
}

fn read_value(bytes: &[u8], at: usize) -> Result<Words, Fault>
    requires { at + 9 ≤ length bytes.now }
    ensures { result ≡ or_undecodable (decodes (value_in at bytes.now)) (value_in at bytes.now) }
{
    let v = value_in(bytes, at);
    if lent::decodable(v) {
        Ok(v)
    } else {
        Err(Fault::Undecodable)
    }
}

fn read_body(kind: u64, body: &[u8]) -> Result<Request, Fault>
    ensures { result ≡ body_reading kind body.now }
{
    let kind = Kind::try_from(kind)?;
    if body.len() != kind.body_length() {
        return Err(Fault::WrongLength);
    }
    match kind {
        Kind::Get => Ok(Request::Get(read_value(body, 0)?)),
        Kind::Set => Ok(Request::Set(read_value(body, 0)?, read_value(body, 9)?)),
        Kind::Length => Ok(Request::Length),
        Kind::Next => Ok(Request::Next(read_value(body, 0)?)),
        Kind::Reserve => Ok(Request::Reserve(number(body))),
    }
}

// The request at the start of the input, the input ending where the slice ends; none where it has ended.
#[tactic(auto, unfolding(crate::specs::Requests::reading))]
pub fn read(input: &[u8]) -> Result<Option<Request>, Fault>
    ensures { result ≡ reading input.now }
{
    if input.is_empty() {
        return Ok(None);
    }
    if input.len() < 2 {
        return Err(Fault::Cut);
    }
    let size = record_size(input);
    if size < 4 {
        return Err(Fault::WrongLength);
    }
    if input.len() < size {
        return Err(Fault::Cut);
    }
    Ok(Some(read_body(number(&input[2..4]), &input[4..size])?))
}
