// A trace's request answered on a store (01, 'Trace program'): each by its call. Every function is total.
#![tactic(auto, using(crate::proofs::Requests::answering))]

ghost use Rattle.std.specs.Prelude.{◌≡◌};
ghost use Rattle.value.specs.Refusals.{refusal_number};
ghost use Rattle.store.specs.Store.{store_of, seen};
ghost use Rattle.answers.specs.Answers.{next_reply, Answers};

use index::Word;
use reads::Next;
use records::Request;
use replies::Reply;
use store::{Record, View};
use value::{Refusal, Words};

#[derive(Clone, Copy)]
pub struct Answered {
    pub reply: Reply,
    pub sizes: Record,
}

// A call that reads is refused only where the shape is wrong, and no trace is run on such a store.
fn refused(refusal: Refusal) -> Reply
    ensures { result ≡ Reply.Fault (refusal_number refusal) }
{
    Reply::Fault(u8::from(refusal))
}

fn stepped(next: Next<Words>) -> Reply
    ensures { result ≡ next_reply next }
{
    match next {
        Next::Found(k, v) => Reply::Found(k, v),
        Next::Last => Reply::Last,
        Next::NotFound => Reply::NotFound,
    }
}

// A refusal answers Nil for the previous value, and leaves the record that was passed.
fn answer_set(
    array: &mut [u64],
    entries: &mut [u64],
    index: &mut [Word],
    sizes: Record,
    key: Words,
    v: Words,
) -> Answered
    ensures { Answers (store_of array.old entries.old index.old sizes) (Request.Set key v) (store_of array.new entries.new index.new result.sizes) result.reply }
{
    let set = writes::set_words(array, entries, index, sizes, key, v);
    let number = value::answer_number(&set);
    let (previous, after) = set.unwrap_or((Words::NIL, sizes));
    Answered {
        reply: Reply::Set(number, previous),
        sizes: after,
    }
}

fn answer_reserve(
    array: &mut [u64],
    entries: &mut [u64],
    index: &mut [Word],
    sizes: Record,
    n: u64,
) -> Answered
    ensures { Answers (store_of array.old entries.old index.old sizes) (Request.Reserve n) (store_of array.new entries.new index.new result.sizes) result.reply }
{
    let reserved = writes::reserve(array, entries, index, sizes, n as usize);
    Answered {
        reply: Reply::Reserved(value::answer_number(&reserved)),
        sizes: reserved.unwrap_or(sizes),
    }
}

pub fn answer(
    array: &mut [u64],
    entries: &mut [u64],
    index: &mut [Word],
    sizes: Record,
    request: Request,
) -> Answered
    ensures { Answers (store_of array.old entries.old index.old sizes) request (store_of array.new entries.new index.new result.sizes) result.reply }
{
    let view = View {
        array,
        entries,
        index,
        sizes,
    };
    let reply = match request {
        Request::Set(key, v) => return answer_set(array, entries, index, sizes, key, v),
        Request::Reserve(n) => return answer_reserve(array, entries, index, sizes, n),
        Request::Get(key) => reads::get_words(&view, key).map_or_else(refused, Reply::Got),
        Request::Length => reads::length(&view).map_or_else(refused, Reply::Length),
        Request::Next(key) => reads::next_words(&view, key).map_or_else(refused, stepped),
    };
    Answered { reply, sizes }
}
