// The trace program (01, 'Trace program'): the records of standard input answered on a fresh store, the replies on standard output, in fixed
// memory. What the replies are is session's; here bytes are moved.
#![tactic(auto)]

ghost use Rattle.std.specs.Prelude.{◌≡◌, ◌<◌, ◌≤◌, length, take, drop, OnOk};
ghost use Rattle.std.specs.Io.KnownBytes.{Appends, Consumes};
ghost use Rattle.store.specs.Store.{store_of};
ghost use Rattle.store.specs.Written.{Sound};
ghost use Rattle.records.specs.Requests.{longest_record};
ghost use Rattle.session.specs.Room.{trace_store};
ghost use Rattle.trace.specs.Rooms.{input_room, output_room};
ghost use Rattle.trace.specs.Turn.{Answered};
ghost use Rattle.trace.specs.Run.{streams, Run};

use index::Word;
use session::Progress;
use std::io;
use std::io::{Read, Write};
use store::Record;

// The bytes of the input's room, more than the longest record has, and of the output's: three times the input and one longest reply, since a
// reply has at most three times its request's bytes. So a turn leaves less than a record (session's `Waits`), and there is always room to
// read. The same numbers stand in specs/Rooms.antt.
const INPUT: usize = 131072;

const OUTPUT: usize = 3 * INPUT + replies::LONGEST;

// What a turn did: how many bytes came, and what was taken of the input and made of output.
#[derive(Clone, Copy)]
struct Turned {
    got: usize,
    progress: Progress,
}

// Why a run ended that could write: the trace is over, by the end of the input or a fault; or the turns are used up.
#[derive(Clone, Copy)]
enum Ended {
    Stopped,
    Spent,
}

// A read that fails counts as the end of the input. So would one into no room.
fn read_some<R: Read>(stdin: &mut R, room: &mut [u8]) -> usize
    requires { 0 < length room.old }
    ensures within { result ≤ length room.new }
    ensures bytes { Consumes (R.remaining stdin.old) (R.remaining stdin.new) (take result room.new) }
{
    stdin.read(room).unwrap_or(0)
}

fn send<W: Write>(stdout: &mut W, bytes: &[u8]) -> io::Result<()>
    ensures { OnOk result (Appends (W.contents stdout.old) (W.contents stdout.new) bytes.now) }
{
    stdout.write_all(bytes)?;
    stdout.flush()
}

// Reads once after the bytes that are held, and answers what is decided.
fn turn<R: Read>(
    stdin: &mut R,
    array: &mut [u64],
    entries: &mut [u64],
    index: &mut [Word],
    sizes: Record,
    input: &mut [u8],
    held: usize,
    output: &mut [u8],
) -> Turned
    requires sound { Sound (store_of array.old entries.old index.old sizes) }
    requires rooms { (held < longest_record) × (input_room ≡ length input.old) × (output_room ≡ length output.old) }
    ensures answered { Answered (store_of array.old entries.old index.old sizes) (store_of array.new entries.new index.new result.progress.sizes) input.old held input.new output.new result }
    ensures came { Consumes (R.remaining stdin.old) (R.remaining stdin.new) (take result.got (drop held input.new)) }
{
    let got = read_some(stdin, &mut input[held..]);
    let come = &input[..held + got];
    let progress = session::serve(array, entries, index, sizes, come, got == 0, output);
    Turned { got, progress }
}

// Turn after turn, what it answers written, and what is left of the input moved to its front. A proved loop has to end, and nothing says that
// the input does: so it counts turns, up to a number that no run comes to.
fn take_turns<R: Read, W: Write>(
    stdin: &mut R,
    stdout: &mut W,
    array: &mut [u64],
    entries: &mut [u64],
    index: &mut [Word],
    sizes: Record,
) -> io::Result<Ended>
    requires { Sound (store_of array.old entries.old index.old sizes) }
    ensures { Run (streams (R.remaining stdin.old) (W.contents stdout.old)) (streams (R.remaining stdin.new) (W.contents stdout.new)) (store_of array.old entries.old index.old sizes) result }
{
    let mut input: [u8; INPUT] = lent::room();
    let mut output: [u8; OUTPUT] = lent::room();
    let mut now = sizes;
    let mut held = 0;
    for _ in 0..u64::MAX {
        let Turned { got, progress } = turn(
            stdin,
            array,
            entries,
            index,
            now,
            &mut input,
            held,
            &mut output,
        );
        send(stdout, &output[..progress.made])?;
        if progress.stopped {
            return Ok(Ended::Stopped);
        }
        now = progress.sizes;
        held = session::keep(&mut input, progress.taken, held + got);
    }
    Ok(Ended::Spent)
}

// The whole program, on the store that a trace begins with.
fn run<R: Read, W: Write>(stdin: &mut R, stdout: &mut W) -> io::Result<Ended>
    ensures { Run (streams (R.remaining stdin.old) (W.contents stdout.old)) (streams (R.remaining stdin.new) (W.contents stdout.new)) trace_store result }
{
    let mut array: [u64; session::ARRAY] = lent::room();
    let mut entries: [u64; session::ENTRIES] = lent::room();
    let mut index: [Word; session::INDEX] = lent::room();
    let sizes = session::begin(&mut array, &mut entries, &mut index);
    take_turns(stdin, stdout, &mut array, &mut entries, &mut index, sizes)
}

// A write that fails ends the run, and there is no one to tell.
fn main(rt: HostRuntime) {
    let _ = run(&mut rt.stdin(), &mut rt.stdout());
}
