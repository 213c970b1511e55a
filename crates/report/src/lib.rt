// The text that an outcome of a script's line prints, written into lent bytes from the first on.
#![tactic(auto)]

ghost use Rattle.std.specs.Prelude.{◌≡◌, ◌+◌, ◌*◌, length};
ghost use Rattle.syntax.specs.Grammar.{put_int};
ghost use Rattle.text.specs.Words.{name_of};
ghost use Rattle.calls.specs.Scripts.{refusal, cells, text};
ghost use Rattle.print.specs.Writing.{Put};
ghost use Rattle.report.specs.Outcomes.{rows_due, row_due, due_after, front_of, cell_end, end_of, put_cell, outcome_of, outcome_text};
ghost use Rattle.report.specs.Written.{Written};

// What a cell of an answer is: the number of routes; a route's two grants, its width and its row count (with the width); a cell of a row, with how many follow it in the row, the width, and how many rows
// follow.
#[derive(Clone, Copy)]
pub enum Due {
    Routes,
    Grant,
    Partner,
    Width,
    Rows(u64),
    Cell(u64, u64, u64),
}

// What a line says: nothing, a refusal by its number, or how many cells or bytes it wrote.
#[derive(Clone, Copy)]
pub enum Message {
    Quiet,
    Refusal(u32),
    Cells(u32),
    Text(u32),
}

// Words with the space after them.
const ROUTES: u64 = 0x726f7574657320;

const ROUTE: u64 = 0x726f75746520;

const REFUSED: u64 = 0x7265667573656420;

// ---- a cell

// What comes next where n rows of a width are still to come.
fn rows_due(width: u64, n: u64) -> Due
    ensures { result ≡ rows_due width n }
{
    if width == 0 || n == 0 {
        return Due::Grant;
    }
    Due::Cell(width - 1, width, n - 1)
}

// What comes after a cell of a row.
fn in_row(k: u64, width: u64, n: u64) -> Due
    ensures { result ≡ row_due k width n }
{
    if k == 0 {
        return rows_due(width, n);
    }
    Due::Cell(k - 1, width, n)
}

// What comes after a cell.
fn due_after(d: Due, z: i64) -> Due
    ensures { result ≡ due_after d z }
{
    match d {
        Due::Routes => Due::Grant,
        Due::Grant => Due::Partner,
        Due::Partner => Due::Width,
        Due::Width => Due::Rows(z.unsigned_abs()),
        Due::Rows(w) => rows_due(w, z.unsigned_abs()),
        Due::Cell(k, w, n) => in_row(k, w, n),
    }
}

// The word in front of a cell, by its number.
fn front_of(d: Due) -> u64
    ensures { name_of result ≡ front_of d }
{
    match d {
        Due::Routes => ROUTES,
        Due::Grant => ROUTE,
        Due::Partner => 0,
        Due::Width => 0,
        Due::Rows(_) => 0,
        Due::Cell(_, _, _) => 0,
    }
}

// The byte after a cell of a row that others follow.
fn cell_end(k: u64) -> u8
    ensures { result ≡ cell_end k }
{
    if k == 0 {
        return b'\n';
    }
    b' '
}

// The byte after a cell.
fn end_of(d: Due) -> u8
    ensures { result ≡ end_of d }
{
    match d {
        Due::Routes => b'\n',
        Due::Grant => b' ',
        Due::Partner => b' ',
        Due::Width => b' ',
        Due::Rows(_) => b'\n',
        Due::Cell(k, _, _) => cell_end(k),
    }
}

// The place after a number, which is written.
fn put_int(out: &mut [u8], p: u32, z: i64) -> u32
    ensures { Put (put_int z) out.old p out.new result }
{
    if z < 0 {
        let q = print::put(out, p, b'-');
        return print::put_wide(out, q, z.unsigned_abs());
    }
    print::put_wide(out, p, z.unsigned_abs())
}

// The place after a cell, which is written with the word before it and the byte after it.
fn put_cell(out: &mut [u8], p: u32, d: Due, z: i64) -> u32
    ensures { Put (put_cell d z) out.old p out.new result }
{
    let a = print::put_word(out, p, front_of(d));
    let b = put_int(out, a, z);
    print::put(out, b, end_of(d))
}

// ---- outcomes

// Returns how many bytes the text of a refusal takes, `refused N` and a line feed.
// Leaves the text in front and all else as it was; the text's start where there is no room.
pub fn write_refusal(out: &mut [u8], n: u32) -> u32
    ensures { Written (outcome_text (refusal n)) 20 out.old out.new result }
{
    let a = print::put_word(out, 0, REFUSED);
    let b = print::put_nat(out, a, n);
    print::put(out, b, b'\n')
}

// Returns how many bytes the text of an answer's cells takes: `routes R`, and for each route `route G G WIDTH ROWS` and its rows, a line each.
// Leaves the text in front and all else as it was; the text's start where there is no room.
pub fn write_cells(out: &mut [u8], zs: &[i64]) -> u32
    ensures { Written (outcome_text (cells zs.now)) (28 * length zs.now) out.old out.new result }
{
    let mut d = Due::Routes;
    let mut p: u32 = 0;
    for z in zs {
        p = put_cell(out, p, d, *z);
        d = due_after(d, *z);
    }
    p
}

// Returns how many bytes a text takes with a line feed after it.
// Leaves them in front and all else as it was; their start where there is no room.
pub fn write_text(out: &mut [u8], bs: &[u8]) -> u32
    ensures { Written (outcome_text (text bs.now)) (length bs.now + 1) out.old out.new result }
{
    let p = print::put_bytes(out, 0, bs);
    print::put(out, p, b'\n')
}

// Returns how many bytes the text of an outcome takes, by what the line says and the cells and bytes that it left.
// Leaves the text in front and all else as it was; the text's start where there is no room.
pub fn write_outcome(out: &mut [u8], says: Message, cells: &[i64], bytes: &[u8]) -> usize
    ensures { Written (outcome_text (outcome_of says cells.now bytes.now)) (28 * length cells.now + length bytes.now + 20) out.old out.new result }
{
    match says {
        Message::Quiet => 0,
        Message::Refusal(number) => write_refusal(out, number) as usize,
        Message::Cells(count) => {
            let n = (count as usize).min(cells.len());
            write_cells(out, &cells[0..n]) as usize
        }
        Message::Text(count) => {
            let n = (count as usize).min(bytes.len());
            write_text(out, &bytes[0..n]) as usize
        }
    }
}
