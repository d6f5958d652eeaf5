// The replies of a trace, written as bytes (01, 'Trace program'). An inner layer: there must be room for what is written.
#![tactic(auto, unfolding(records::specs::Bytes::little_endian))]

ghost use Rattle.std.specs.Prelude.{◌+◌, ◌≤◌, length};
ghost use Rattle.records.specs.Bytes.{little_endian, value_bytes, head_bytes, framed};
ghost use Rattle.replies.specs.Replies.{Appends, reply_bytes, longest};

use value::Words;

// Refusals and faults stay bytes: `reply-unique` speaks of every byte.
#[derive(Clone, Copy)]
pub enum Reply {
    Got(Words),
    // the refusal number and the previous value
    Set(u8, Words),
    Length(u64),
    Found(Words, Words),
    Last,
    NotFound,
    Reserved(u8),
    Fault(u8),
}

// No reply has more bytes.
pub const LONGEST: usize = 23;

// Writes bytes at a place, and answers where they end, as each writer does.
pub fn put(output: &mut [u8], at: usize, bytes: &[u8]) -> usize
    requires { at + length bytes.now ≤ length output.old }
    ensures { Appends output.old at bytes.now output.new result }
{
    let end = at + bytes.len();
    output[at..end].copy_from_slice(bytes);
    end
}

pub fn put_value(output: &mut [u8], at: usize, v: Words) -> usize
    requires { at + 9 ≤ length output.old }
    ensures { Appends output.old at (value_bytes v) output.new result }
{
    let payload = put(output, at, &v.kind.to_le_bytes()[..1]);
    put(output, payload, &v.payload.to_le_bytes())
}

// The length of the rest and the kind, for a body of so many bytes.
pub fn put_head(output: &mut [u8], at: usize, body: u64, kind: u64) -> usize
    requires { (at + 4 ≤ length output.old) × (body ≤ 65533) }
    ensures { Appends output.old at (head_bytes body kind) output.new result }
{
    let second = put(output, at, &(2 + body).to_le_bytes()[..2]);
    put(output, second, &kind.to_le_bytes()[..2])
}

// A reply of one byte.
fn put_short(output: &mut [u8], at: usize, kind: u64, byte: u8) -> usize
    requires { at + 5 ≤ length output.old }
    ensures { Appends output.old at (framed kind (little_endian 1 byte)) output.new result }
{
    let body = put_head(output, at, 1, kind);
    put(output, body, &[byte])
}

pub fn write(reply: Reply, output: &mut [u8], at: usize) -> usize
    requires { at + longest ≤ length output.old }
    ensures { Appends output.old at (reply_bytes reply) output.new result }
{
    match reply {
        Reply::Got(v) => {
            let body = put_head(output, at, 9, 257);
            put_value(output, body, v)
        }
        Reply::Set(n, v) => {
            let body = put_head(output, at, 10, 258);
            let previous = put(output, body, &[n]);
            put_value(output, previous, v)
        }
        Reply::Length(n) => {
            let body = put_head(output, at, 8, 259);
            put(output, body, &n.to_le_bytes())
        }
        Reply::Found(k, v) => {
            let body = put_head(output, at, 19, 260);
            let key = put(output, body, &[0]);
            let value = put_value(output, key, k);
            put_value(output, value, v)
        }
        Reply::Last => put_short(output, at, 260, 1),
        Reply::NotFound => put_short(output, at, 260, 2),
        Reply::Reserved(n) => put_short(output, at, 261, n),
        Reply::Fault(n) => put_short(output, at, 511, n),
    }
}
