// Reads a script from standard input, does its lines one after another, and writes what they print to standard output.
// With the argument `--explain` it also says on standard error which line is refused, and why; with `--status`, its exit status says how it ended.
#![tactic(auto)]

ghost use Rattle.lines.specs.Runs.{point};
ghost use Rattle.program.specs.Rounds.{Goes, Round, Lent, All};
// Named since a State holds one: the checker knows the types of the crates that are named here alone.
use caller::Caller;
use console::{Got, Output, Reading};
use grant::Grant;
use ledger::Ledger;
use lines::Run;
use schema::Stream;
use script::State;
use std::alloc::Alloc;
use std::process::ExitCode;
use text::Line;

// How much is kept of a line: one byte more than a line may have, so that any longer one is refused for its length.
const KEPT: usize = Line::BYTES + 1;

// Cells and bytes that are lent to a line.
const CELLS: usize = 4096;

const BYTES: usize = 4096;

// Bytes that are read at once, at most.
const BLOCK: usize = 65536;

// Bytes of output that are kept until they are written: twice what any text fits in.
const OUT: usize = 262144;

// Reads a part of the input, does the lines that end in it, and writes what they print before more is waited for.
fn do_some(
    rt: &(impl Input + Print + Eprint + Alloc),
    run: Run,
    block: &mut [u8],
    names: &mut [u64],
    times: &mut [u32],
    values: &mut [i32],
    words: &mut [u32],
    line: &mut [u8],
    cells: &mut [i64],
    bytes: &mut [u8],
    out: &mut [u8],
) -> Run
    requires { Goes run }
    ensures { Round block.new run result (point run.state names.old times.old values.old words.old cells.old bytes.old) (point result.state names.new times.new values.new words.new cells.new bytes.new) line.old line.new out.old out.new }
{
    let got = console::read_some(rt, block, run.kept);
    let n = got.count;
    let mut r = lines::do_block(
        rt,
        run,
        &block[0..n],
        names,
        times,
        values,
        words,
        line,
        cells,
        bytes,
        out,
    );
    r.output = console::flush(rt, out, r.output);
    r.reading = got.reading;
    r
}

// Does the lines of standard input to its end. A proved loop has to end, and nothing says that the input does: the loop has more rounds than any run uses up.
fn do_all(
    rt: &(impl Input + Print + Eprint + Alloc),
    run: Run,
    block: &mut [u8],
    names: &mut [u64],
    times: &mut [u32],
    values: &mut [i32],
    words: &mut [u32],
    line: &mut [u8],
    cells: &mut [i64],
    bytes: &mut [u8],
    out: &mut [u8],
) -> Run
    requires { Lent run (point run.state names.old times.old values.old words.old cells.old bytes.old) block.old line.old out.old }
    ensures { All run result (point run.state names.old times.old values.old words.old cells.old bytes.old) (point result.state names.new times.new values.new words.new cells.new bytes.new) line.old line.new out.old out.new }
{
    let mut r = run;
    'rounds: for _ in 0..u64::MAX {
        if console::is_over(r.reading, r.output.lost) {
            return r;
        }
        r = do_some(
            rt, r, block, names, times, values, words, line, cells, bytes, out,
        );
    }
    r
}

fn main(rt: HostRuntime) -> ExitCode {
    let mut block = [0u8; BLOCK];
    let mut names = [0u64; Stream::MOST + Stream::MOST * Stream::COLUMNS];
    let mut times = [0u32; Ledger::PLACES];
    let mut values = [0i32; Ledger::VALUES];
    let mut words = [0u32; Grant::WORDS];
    let mut line = [0u8; KEPT];
    let mut cells = [0i64; CELLS];
    let mut bytes = [0u8; BYTES];
    let mut out = [0u8; OUT];
    let start = Run {
        state: State::new(),
        lines: 0,
        kept: 0,
        at: 0,
        output: Output {
            used: 0,
            lost: false,
        },
        explains: console::is_given(&rt, b"--explain"),
        refused: false,
        reading: Reading::Open,
    };
    let r = do_all(
        &rt,
        start,
        &mut block,
        &mut names,
        &mut times,
        &mut values,
        &mut words,
        &mut line,
        &mut cells,
        &mut bytes,
        &mut out,
    );
    console::say_status(&rt, r.reading, r.output.lost, r.refused)
}
