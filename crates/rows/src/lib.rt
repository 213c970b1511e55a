// Rows of one stream as a mask of 128 bits.
#![tactic(auto)]

ghost use Rattle.std.specs.Prelude.{◌≡◌, ◌-◌, ◌^◌};
ghost use Rattle.rows.specs.Masks.{part, no_rows, first_rows, both_of, either_of, flip_of, row_bit, ones_of, next_bit};

// A row is a bit: four words, the lowest first.
#[derive(Clone, Copy)]
pub struct Rows {
    pub a: u32,
    pub b: u32,
    pub c: u32,
    pub d: u32,
}

// Returns how many of n rows stand in the word that begins at a row.
pub fn part(n: u32, from: u32) -> u32
    ensures { result ≡ part n from }
{
    if n <= from {
        return 0;
    }
    if n - from < Rows::WORD {
        return n - from;
    }
    Rows::WORD
}

// Returns the bits of those of n rows that stand in the word that begins at a row.
fn filled(n: u32, from: u32) -> u32
    ensures { result ≡ 2 ^ part n from - 1 }
{
    let k = part(n, from);
    if k < 32 {
        return (1 << k) - 1;
    }
    u32::MAX
}

// Returns the first bit from i on that is set in a word, or 32.
pub fn next_bit(w: u32, i: u32) -> u32
    ensures { result ≡ next_bit w i }
{
    if 32 <= i {
        return 32;
    }
    let m = w >> i;
    if m == 0 {
        return 32;
    }
    i + u32::trailing_zeros(m)
}

impl Rows {
    // How many rows a word of a mask has bits for, and how many its four words.
    pub const WORD: u32 = 32;

    pub const MOST: u32 = 4 * Rows::WORD;

    // Returns the mask of no row.
    pub fn none() -> Rows
        ensures { result ≡ no_rows }
    {
        Rows {
            a: 0,
            b: 0,
            c: 0,
            d: 0,
        }
    }

    // Returns the first n rows.
    pub fn first(n: u32) -> Rows
        ensures { result ≡ first_rows n }
    {
        if Rows::MOST <= n {
            return Rows {
                a: u32::MAX,
                b: u32::MAX,
                c: u32::MAX,
                d: u32::MAX,
            };
        }
        Rows {
            a: filled(n, 0),
            b: filled(n, 32),
            c: filled(n, 64),
            d: filled(n, 96),
        }
    }

    // Returns the rows that are in both.
    pub fn both(self, y: Rows) -> Rows
        ensures { result ≡ both_of self y }
    {
        Rows {
            a: self.a & y.a,
            b: self.b & y.b,
            c: self.c & y.c,
            d: self.d & y.d,
        }
    }

    // Returns the rows that are in one of the two or in both.
    pub fn either(self, y: Rows) -> Rows
        ensures { result ≡ either_of self y }
    {
        Rows {
            a: self.a | y.a,
            b: self.b | y.b,
            c: self.c | y.c,
            d: self.d | y.d,
        }
    }

    // Returns the rows that are in one of the two alone: of all rows and some, the others.
    pub fn flip(self, y: Rows) -> Rows
        ensures { result ≡ flip_of self y }
    {
        Rows {
            a: self.a ^ y.a,
            b: self.b ^ y.b,
            c: self.c ^ y.c,
            d: self.d ^ y.d,
        }
    }

    // Returns whether a row is in it.
    pub fn has_row(self, i: u32) -> bool
        ensures { result ≡ row_bit self i }
    {
        if i < 32 {
            return masks::shows(self.a, i);
        }
        if i < 64 {
            return masks::shows(self.b, i - 32);
        }
        if i < 96 {
            return masks::shows(self.c, i - 64);
        }
        masks::shows(self.d, i - 96)
    }

    // Returns how many rows are in it.
    pub fn count(self) -> u32
        ensures { result ≡ ones_of self }
    {
        u32::count_ones(self.a)
            + u32::count_ones(self.b)
            + (u32::count_ones(self.c) + u32::count_ones(self.d))
    }
}
