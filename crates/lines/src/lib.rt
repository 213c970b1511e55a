// Lines of a script as they come in parts of its input: each is kept until it ends and is done then, and what it prints goes behind the output.
#![tactic(auto)]

ghost use Rattle.std.specs.Prelude.{◌≤◌, length, take};
ghost use Rattle.lines.specs.Runs.{point, Says, Done, Part, Block};

use console::{Output, Reading};
use report::Message;
use std::alloc::Alloc;
// Named since a State holds one: the checker knows the types of the crates that are named here alone.
use caller::Caller;
use grant::Grant;
use ledger::Ledger;
use schema::Stream;
use script::State;

// What goes from line to line: the state of the script, how many lines were done, how many bytes of the next one are kept, how far the block is done, where the output stands, whether refusals are explained, whether a line was refused, and how reading the input stands.
#[derive(Clone, Copy)]
pub struct Run {
    pub state: State,
    pub lines: u64,
    pub kept: usize,
    pub at: usize,
    pub output: Output,
    pub explains: bool,
    pub refused: bool,
    pub reading: Reading,
}

// What a line leaves beside the state: how many lines were done, where the output stands, and whether one was refused.
#[derive(Clone, Copy)]
pub struct Said {
    pub lines: u64,
    pub output: Output,
    pub refused: bool,
}

// After a line: the text of its outcome behind the output, the reason where refusals are explained, and what is counted.
fn say(
    rt: &(impl Print + Eprint + Alloc),
    before: Said,
    explains: bool,
    says: Message,
    cells: &[i64],
    bytes: &[u8],
    out: &mut [u8],
) -> Said
    ensures { Says explains says cells.now bytes.now before result out.old out.new }
{
    let lines = std::num::wrapping_add_u64(before.lines, 1);
    let added = console::add(rt, out, before.output, says, cells, bytes);
    let told = console::tell(rt, out, added, explains, lines, says);
    Said {
        lines: lines,
        output: told,
        refused: console::refused_by(before.refused, says),
    }
}

// Does the line that is kept.
fn do_line(
    rt: &(impl Print + Eprint + Alloc),
    run: Run,
    names: &mut [u64],
    times: &mut [u32],
    values: &mut [i32],
    words: &mut [u32],
    line: &[u8],
    cells: &mut [i64],
    bytes: &mut [u8],
    out: &mut [u8],
) -> Run
    ensures { Done (take run.kept line.now) run result (point run.state names.old times.old values.old words.old cells.old bytes.old) (point result.state names.new times.new values.new words.new cells.new bytes.new) out.old out.new }
{
    let n = run.kept.min(line.len());
    let r = script::step(
        run.state,
        names,
        times,
        values,
        words,
        &line[0..n],
        cells,
        bytes,
    );
    let before = Said {
        lines: run.lines,
        output: run.output,
        refused: run.refused,
    };
    let said = say(rt, before, run.explains, r.says, cells, bytes, out);
    Run {
        state: r.state,
        lines: said.lines,
        kept: 0,
        output: said.output,
        refused: said.refused,
        ..run
    }
}

// From where the block is done, keeps what comes before the next line feed, and does the line where there is one.
fn do_part(
    rt: &(impl Print + Eprint + Alloc),
    run: Run,
    block: &[u8],
    names: &mut [u64],
    times: &mut [u32],
    values: &mut [i32],
    words: &mut [u32],
    line: &mut [u8],
    cells: &mut [i64],
    bytes: &mut [u8],
    out: &mut [u8],
) -> Run
    requires { run.at ≤ length block.now }
    ensures { Part block.now run result (point run.state names.old times.old values.old words.old cells.old bytes.old) (point result.state names.new times.new values.new words.new cells.new bytes.new) line.old line.new out.old out.new }
{
    let from = run.at;
    let e = console::line_end(block, from);
    let mut r = run;
    r.kept = console::keep(line, run.kept, &block[from..e]);
    r.at = console::after(block, e);
    if block.len() <= e {
        return r;
    }
    do_line(rt, r, names, times, values, words, line, cells, bytes, out)
}

// Does the lines that end in a block, and keeps what comes after the last of them.
pub fn do_block(
    rt: &(impl Print + Eprint + Alloc),
    run: Run,
    block: &[u8],
    names: &mut [u64],
    times: &mut [u32],
    values: &mut [i32],
    words: &mut [u32],
    line: &mut [u8],
    cells: &mut [i64],
    bytes: &mut [u8],
    out: &mut [u8],
) -> Run
    ensures { Block block.now run result (point run.state names.old times.old values.old words.old cells.old bytes.old) (point result.state names.new times.new values.new words.new cells.new bytes.new) line.old line.new out.old out.new }
{
    let mut r = run;
    r.at = 0;
    while r.at < block.len() {
        r = do_part(
            rt, r, block, names, times, values, words, line, cells, bytes, out,
        );
    }
    r
}
