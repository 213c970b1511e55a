// The clock and the four row counts, which go in with a call and come back with it. Rows stand in lent memory: a time and six values a place, 128 places a stream.
#![tactic(auto)]

ghost use Rattle.std.specs.Prelude.{Err, ◌≡◌, ◌+◌, ◌*◌, ◌-◌, ◌≤◌, ◌<◌, T, length, get_or};
ghost use Rattle.std.proofs.Math.Seq.{paste};
ghost use Rattle.refusal.specs.Results.{said_by, held_after};
ghost use Rattle.lists.specs.Lists.{every};
ghost use Rattle.syntax.specs.Limits.{max_streams, max_columns, max_rows, is_value};
ghost use Rattle.ledger.specs.Records.{places_size, values_size, count_in, ledger_sound, undeclared_empty, times_steady, streams_steady, rows_sound, memory_sound};
ghost use Rattle.ledger.specs.Calls.{begun, clocked, clock_call, cleared, clear_call, row_place, with_rows, row_shown, Enters, Stored, RowCall};

use refusal::{Checks, Refusal, Refused};
use schema::Stream;
use text::{Number, Time};

#[repr(C)]
#[derive(Clone, Copy)]
pub struct Ledger {
    pub clock: u32,
    pub rows: [u32; Stream::MOST],
}

impl Ledger {
    // How many rows a stream may have.
    pub const ROWS: usize = 128;
    // How many places are lent for rows.
    pub const PLACES: usize = Stream::MOST * Ledger::ROWS;
    // How many values these hold.
    pub const VALUES: usize = Ledger::PLACES * Stream::COLUMNS;

    // Returns Ledger::ROWS, which is the bound of the definitions.
    pub fn rows() -> usize
        ensures { result ≡ max_rows }
    {
        Ledger::ROWS
    }

    // Returns Ledger::PLACES, which follows from it.
    pub fn places() -> usize
        ensures { result ≡ places_size }
    {
        Ledger::PLACES
    }

    // Returns Ledger::VALUES, which follows from it.
    pub fn values() -> usize
        ensures { result ≡ values_size }
    {
        Ledger::VALUES
    }

    // Returns the ledger of a fresh record: clock 0 and no rows.
    pub fn new() -> Ledger
        ensures { result ≡ begun }
    {
        Ledger {
            clock: 0,
            rows: [0; Stream::MOST],
        }
    }

    // Returns whether the ledger may be lent: clock and counts are within their bounds (refusal 12).
    pub fn sound(self) -> bool
        ensures { result ≡ ledger_sound self }
    {
        if Time::TOP < self.clock {
            return false;
        }
        for n in &self.rows {
            if Ledger::ROWS < *n as usize {
                return false;
            }
        }
        true
    }

    // A refused call: the refusal with the ledger as it was.
    fn refused(self, refusal: Refusal) -> Result<Ledger, Refused<Ledger>>
        ensures { result ≡ Err (record { refusal = refusal; held = self }) }
    {
        Err(Refused {
            refusal,
            held: self,
        })
    }

    // Returns what `clock` does for a time, None where a number is none, after what a line showed (`checks`).
    pub fn clock_with(self, t: Option<u32>, checks: Checks) -> Result<Ledger, Refused<Ledger>>
        ensures { result ≡ clocked self t checks }
    {
        let time = t.unwrap_or(0);
        let mut c = checks;
        c.lent = !self.sound();
        c.bound |= t.is_none();
        c.back = time < self.clock;
        match c.result() {
            Ok(()) => {
                let mut next = self;
                next.clock = time;
                Ok(next)
            }
            Err(refusal) => self.refused(refusal),
        }
    }

    // The clock call. Returns the ledger with the time, which may be any number, or the refusal with the ledger as it was.
    pub fn clock(self, t: i64) -> Result<Ledger, Refused<Ledger>>
        ensures { result ≡ clock_call self t }
    {
        let n = Number { value: t, next: 0 };
        self.clock_with(n.time(), Checks::new())
    }

    // Returns what `clear` does, after what a line showed (`checks`).
    pub fn clear_with(self, checks: Checks) -> Result<Ledger, Refused<Ledger>>
        ensures { result ≡ cleared self checks }
    {
        let mut c = checks;
        c.lent = !self.sound();
        match c.result() {
            Ok(()) => {
                let mut next = self;
                next.rows = [0; Stream::MOST];
                Ok(next)
            }
            Err(refusal) => self.refused(refusal),
        }
    }

    // The clear call. Returns the ledger with no rows and its clock, or the refusal with the ledger as it was.
    pub fn clear(self) -> Result<Ledger, Refused<Ledger>>
        ensures { result ≡ clear_call self }
    {
        self.clear_with(Checks::new())
    }

    // Returns how many rows a stream has, 0 where there is no such stream.
    pub fn count(self, s: usize) -> usize
        ensures { result ≡ count_in self s }
    {
        if Stream::MOST <= s {
            return 0;
        }
        let n = self.rows[s] as usize;
        if n < Ledger::ROWS {
            return n;
        }
        Ledger::ROWS
    }

    // The streams from number n on have no rows.
    fn rest_empty(self, n: usize) -> bool
        ensures { result ≡ undeclared_empty self n }
    {
        for s in n..Stream::MOST {
            if self.rows[s] != 0 {
                return false;
            }
        }
        true
    }

    // The times of the first n streams are steady.
    fn streams_steady(self, n: usize, times: &[u32]) -> bool
        requires { (n ≤ max_streams) × (places_size ≤ length times.now) }
        ensures { result ≡ streams_steady self n times.now }
    {
        for s in 0..n {
            if !steady(times, self.clock, s * Ledger::ROWS, self.count(s)) {
                return false;
            }
        }
        true
    }
}

// Four times from a place on do not fall, nor is the first below another.
fn rising(times: &[u32], low: u32, i: usize) -> bool
    requires { i + 4 ≤ length times.now }
    ensures { result ≡ times_steady times.now low (get_or times.now (i + 3) 0) i 4 }
{
    let a = times[i];
    if a < low {
        return false;
    }
    let b = times[i + 1];
    if b < a {
        return false;
    }
    let c = times[i + 2];
    if c < b {
        return false;
    }
    c <= times[i + 3]
}

// The times from a place up to another do not fall, from a lowest one on, and none is past the clock.
fn rest_steady(times: &[u32], lowest: u32, clock: u32, at: usize, end: usize) -> bool
    requires { end ≤ length times.now }
    ensures { result ≡ times_steady times.now lowest clock at (end - at) }
{
    let mut low = lowest;
    for i in at..end {
        let t = times[i];
        if t < low {
            return false;
        }
        low = t;
    }
    low <= clock
}

// The times of some places from one on do not fall, and none is past the clock: four at a time, then the rest.
fn steady(times: &[u32], clock: u32, at: usize, count: usize) -> bool
    requires { at + count ≤ length times.now }
    ensures { result ≡ times_steady times.now 0 clock at count }
{
    let end = at + count;
    let mut low: u32 = 0;
    // The index goes on by four, for speed, and where it ends the rest begins.
    let mut i = at;
    while i + 4 <= end {
        if !rising(times, low, i) {
            return false;
        }
        low = times[i + 3];
        i += 4;
    }
    rest_steady(times, low, clock, i, end)
}

// Returns whether ledger and rows may be lent with the names of the streams (refusal 12).
pub fn rows_sound(l: Ledger, names: &[u64], times: &[u32], values: &[i32]) -> bool
    ensures { result ≡ rows_sound (record { ledger = l; names = names.now; times = times.now; values = values.now }) }
{
    if !l.sound() {
        return false;
    }
    if times.len() < Ledger::PLACES {
        return false;
    }
    if values.len() < Ledger::VALUES {
        return false;
    }
    let n = schema::streams(names);
    if !l.rest_empty(n) {
        return false;
    }
    l.streams_steady(n, times)
}

// Returns whether the record may be lent: names, ledger and rows (refusal 12).
pub fn sound(l: Ledger, names: &[u64], times: &[u32], values: &[i32]) -> bool
    ensures { result ≡ memory_sound (record { ledger = l; names = names.now; times = times.now; values = values.now }) }
{
    if !schema::sound(names) {
        return false;
    }
    rows_sound(l, names, times, values)
}

// Each value that is lent is a number of 32 bits: it is read so that this is known of it, and the compiler leaves the loop out.
pub fn known(vs: &[i32])
    ensures { T (every is_value vs.now) }
{
    for v in vs {
        let _v = *v;
    }
}

// Values from a place on. By a loop: as a copy of slices it calls memmove, which the library needs nowhere else.
fn put(values: &mut [i32], at: usize, vs: &[i32])
    requires { at + length vs.now ≤ length values.old }
    ensures { values.new ≡ paste values.old at vs.now (length vs.now) }
{
    for c in 0..vs.len() {
        values[at + c] = vs[c];
    }
}

impl Ledger {
    // The ledger with one row more of a stream.
    fn with_row(self, s: usize) -> Ledger
        ensures { result ≡ with_rows self s }
    {
        let count = self.count(s);
        let mut next = self;
        if Stream::MOST <= s {
            return next;
        }
        next.rows[s] = (count + 1) as u32;
        next
    }

    // A row in the next place of its stream, stamped with the clock.
    fn store(self, s: usize, vs: &[i32], times: &mut [u32], values: &mut [i32])
        requires { (row_place self s < length times.old) × (row_place self s * max_columns + length vs.now ≤ length values.old) × (s < max_streams) }
        ensures { Stored self s vs.now times.old times.new values.old values.new }
    {
        let at = s * Ledger::ROWS + self.count(s);
        times[at] = self.clock;
        put(values, at * Stream::COLUMNS, vs);
    }

    // What is wrong with a row call, beside what a line showed before.
    fn row_checks(
        self,
        names: &[u64],
        s: usize,
        n: usize,
        times: &[u32],
        values: &[i32],
        checks: Checks,
    ) -> Checks
        ensures { result ≡ row_shown (record { ledger = self; names = names.now; times = times.now; values = values.now }) s n checks }
    {
        let mut c = checks;
        c.lent = !sound(self, names, times, values);
        c.undeclared = text::either(c.undeclared, schema::streams(names) <= s);
        c.misplaced = text::either(c.misplaced, n != schema::width(names, s));
        c.full = Ledger::ROWS <= self.count(s);
        c
    }

    // Returns and leaves what `row` does, after what a line showed (`checks`).
    pub fn row_with(
        self,
        names: &[u64],
        s: usize,
        vs: &[i32],
        times: &mut [u32],
        values: &mut [i32],
        checks: Checks,
    ) -> Result<Ledger, Refused<Ledger>>
        ensures { Enters (record { ledger = self; names = names.now; times = times.old; values = values.old }) s vs.now checks (record { ledger = held_after result; names = names.now; times = times.new; values = values.new }) (said_by result) }
    {
        let c = self.row_checks(names, s, vs.len(), times, values, checks);
        match c.result() {
            Ok(()) => {
                self.store(s, vs, times, values);
                Ok(self.with_row(s))
            }
            Err(refusal) => self.refused(refusal),
        }
    }

    // The row call: one row more of the stream of a number. Returns the ledger with one row more, or the refusal with the ledger as it was.
    // Leaves the clock in its time and the values in its places, and all else as it was; refused, all places as they were.
    pub fn row(
        self,
        names: &[u64],
        s: usize,
        vs: &[i32],
        times: &mut [u32],
        values: &mut [i32],
    ) -> Result<Ledger, Refused<Ledger>>
        ensures { RowCall (record { ledger = self; names = names.now; times = times.old; values = values.old }) s vs.now (record { ledger = held_after result; names = names.now; times = times.new; values = values.new }) (said_by result) }
    {
        known(vs);
        self.row_with(names, s, vs, times, values, Checks::new())
    }
}
