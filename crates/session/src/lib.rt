// A trace's input that has come so far, taken record by record (01, 'Trace program'): each request answered on the store, its reply written
// after the ones before. `serve` assumes nothing; `serve_record` asks for room, and `keep` for places in its slice.
#![tactic(auto)]

ghost use Rattle.std.specs.Prelude.{◌≡◌, ◌+◌, ◌-◌, ◌≤◌, length, take, drop};
ghost use Rattle.store.specs.Store.{slices, store_of};
ghost use Rattle.replies.specs.Replies.{longest};
ghost use Rattle.session.specs.Room.{trace_store};
ghost use Rattle.session.specs.Served.{Decided, Further, ServedInto, Paced, Waits};

use answers::Answered;
use index::Word;
use replies::Reply;
use store::Record;

// The words of a trace's room, a = 1,024 values and e = 512 entries, and the least index for them: specs/Room.antt says why so many.
pub const ARRAY: usize = 2048;

pub const ENTRIES: usize = 2048;

pub const INDEX: usize = 1024;

// What was taken of the input and made of output, and whether the trace has ended. All of it holds whether it has ended or not.
#[derive(Clone, Copy)]
pub struct Progress {
    pub sizes: Record,
    pub taken: usize,
    pub made: usize,
    pub stopped: bool,
}

// The fresh store that a trace begins with.
#[tactic(auto, using(crate::proofs::Room::beginning))]
pub fn begin(
    array: &mut [u64; ARRAY],
    entries: &mut [u64; ENTRIES],
    index: &mut [Word; INDEX],
) -> Record
    ensures { store_of array.new entries.new index.new result ≡ trace_store }
{
    store::fresh(array, entries, index).unwrap()
}

// One record, where the input decides it or has ended.
fn serve_record(
    array: &mut [u64],
    entries: &mut [u64],
    index: &mut [Word],
    sizes: Record,
    input: &[u8],
    output: &mut [u8],
    made: usize,
) -> Progress
    requires { made + longest ≤ length output.old }
    ensures served_into { ServedInto (store_of array.old entries.old index.old sizes) (slices array.new entries.new index.new) (Decided input.now) input.now output.old made output.new result }
    ensures paced { Paced (store_of array.old entries.old index.old sizes) made result }
{
    match records::read(input) {
        Ok(None) => Progress {
            sizes,
            taken: 0,
            made,
            stopped: true,
        },
        Err(fault) => Progress {
            sizes,
            taken: 0,
            made: replies::write(Reply::Fault(u8::from(fault)), output, made),
            stopped: true,
        },
        Ok(Some(request)) => {
            let Answered { reply, sizes } = answers::answer(array, entries, index, sizes, request);
            Progress {
                sizes,
                taken: records::record_size(input),
                made: replies::write(reply, output, made),
                stopped: false,
            }
        }
    }
}

// The input that has come so far; `last` says that no more will. Takes record by record, while there is room for a reply.
pub fn serve(
    array: &mut [u64],
    entries: &mut [u64],
    index: &mut [Word],
    sizes: Record,
    input: &[u8],
    last: bool,
    output: &mut [u8],
) -> Progress
    ensures served_into { ServedInto (store_of array.old entries.old index.old sizes) (slices array.new entries.new index.new) (Further last) input.now output.old 0 output.new result }
    ensures waits { Waits (store_of array.old entries.old index.old sizes) input.now last output.old result }
{
    let mut done = Progress {
        sizes,
        taken: 0,
        made: 0,
        stopped: false,
    };
    while !done.stopped
        && replies::LONGEST <= output.len() - done.made
        && (last || records::is_whole(&input[done.taken..]))
    {
        let left = &input[done.taken..];
        let next = serve_record(array, entries, index, done.sizes, left, output, done.made);
        done = Progress {
            taken: done.taken + next.taken,
            ..next
        };
    }
    done
}

// Moves the bytes from a place up to another to the start, and answers how many they are.
pub fn keep(bytes: &mut [u8], from: usize, to: usize) -> usize
    requires { (from ≤ to) × (to ≤ length bytes.old) }
    ensures { (result ≡ to - from) × (take result bytes.new ≡ take result (drop from bytes.old)) }
{
    bytes.copy_within(from..to, 0);
    to - from
}
