// The walker (the original's Iter): what a walk keeps between its steps, lent to each step and advanced in place. Every call is total.
#![tactic(auto)]

ghost use Rattle.std.specs.Prelude.{◌≡◌};
ghost use Rattle.store.specs.Store.{seen};
ghost use Rattle.iter.specs.Walker.{start, ended, refused, stepped, WalkerSteps};

use reads::Next;
use store::View;
use value::{Refusal, Value};

#[derive(Clone, Copy)]
pub struct Walker {
    // the key last handed out, Nil before the first; an ended walker keeps it, so that a host can go on from it
    pub key: Value,
    pub done: bool,
}

// A walker after its step, and what that handed out: a key and its value, or nothing at the end.
#[derive(Clone, Copy)]
pub struct Stepped {
    pub walker: Walker,
    pub answer: Result<Option<(Value, Value)>, Refusal>,
}

// A walker at its end.
fn end(key: Value) -> Stepped
    ensures { result ≡ ended key }
{
    Stepped {
        walker: Walker { key, done: true },
        answer: Ok(None),
    }
}

fn refuse(walker: Walker, refusal: Refusal) -> Stepped
    ensures { result ≡ refused walker refusal }
{
    Stepped {
        walker,
        answer: Err(refusal),
    }
}

// One step of a walker by value: at its end for ever, else as `next` from the key that it keeps. Either tests the shape first.
pub fn step(walker: Walker, view: &View) -> Stepped
    ensures { WalkerSteps (seen view.now) walker result }
{
    let key = walker.key;
    if walker.done {
        if store::is_shaped(view) {
            return end(key);
        }
        return refuse(walker, Refusal::WrongShape);
    }
    match table::next(view, key) {
        Ok(Next::Found(k, v)) => Stepped {
            walker: Walker {
                key: k,
                done: false,
            },
            answer: Ok(Some((k, v))),
        },
        Ok(Next::Last) => end(key),
        Ok(Next::NotFound) => end(key),
        Err(refusal) => refuse(walker, refusal),
    }
}

impl Walker {
    // Before the first pair.
    pub fn new() -> Self
        ensures { result ≡ start }
    {
        Self {
            key: Value::Nil,
            done: false,
        }
    }

    pub fn next(&mut self, view: &View) -> Result<Option<(Value, Value)>, Refusal>
        ensures { WalkerSteps (seen view.now) self.old (stepped self.new result) }
    {
        let s = step(*self, view);
        *self = s.walker;
        s.answer
    }
}
