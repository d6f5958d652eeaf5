// The calls with Values in and out (the original's RawTable): the words of what is passed go to the calls on words, and what they answer is
// read as a Value. `length` and `reserve` take and answer no Value: reads::length and writes::reserve. Every call is total.
#![tactic(auto)]

ghost use Rattle.store.specs.Store.{slices, store_of, seen};
ghost use Rattle.table.specs.Values.{GetValue, SetValue, NextOfValue};

use index::Word;
use reads::Next;
use store::{Record, View};
use value::{Refusal, Value, Words};

pub fn get(view: &View, key: Value) -> Result<Value, Refusal>
    ensures { GetValue (seen view.now) key result }
{
    let found = reads::get_words(view, Words::from(key))?;
    Ok(Value::or_nil(found))
}

// The previous value, and the record after the call.
pub fn set(
    array: &mut [u64],
    entries: &mut [u64],
    index: &mut [Word],
    sizes: Record,
    key: Value,
    v: Value,
) -> Result<(Value, Record), Refusal>
    ensures { SetValue (store_of array.old entries.old index.old sizes) key v (slices array.new entries.new index.new) result }
{
    let (previous, after) = writes::set_words(
        array,
        entries,
        index,
        sizes,
        Words::from(key),
        Words::from(v),
    )?;
    Ok((Value::or_nil(previous), after))
}

pub fn next(view: &View, key: Value) -> Result<Next<Value>, Refusal>
    ensures { NextOfValue (seen view.now) key result }
{
    match reads::next_words(view, Words::from(key))? {
        Next::Found(k, v) => Ok(Next::Found(Value::or_nil(k), Value::or_nil(v))),
        Next::Last => Ok(Next::Last),
        Next::NotFound => Ok(Next::NotFound),
    }
}
