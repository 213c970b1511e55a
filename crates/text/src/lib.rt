// Reading a text at a place: runs of bytes, names, numbers and keywords.
#![tactic(auto)]

ghost use Rattle.std.specs.Prelude.{◌≡◌, ◌||◌, ◌+◌, ◌*◌, ◌-◌, ◌≤◌, min, length, get_or, drop};
ghost use Rattle.syntax.specs.Grammar.{digit, letter, alnum};
ghost use Rattle.syntax.specs.Limits.{max_name, max_line, max_depth, top};
ghost use Rattle.syntax.specs.Readers.{byte, plain, value_from};
ghost use Rattle.text.specs.Words.{read_end, class_of, run_end, code_of, name_found, far, numeral_end, natural_found, number_found, value_given, time_given};
ghost use Rattle.text.specs.Keywords.{head_given, right_given, form_given, word_found, WordAt, opening_end, part_end, closes_at, line_after, too_long};

// Classes of bytes: letters and digits, digits, and all but spaces and brackets.
#[derive(Clone, Copy)]
pub enum Class {
    Alnum,
    Digit,
    Plain,
}

// A name at a place: one of at most eight bytes fits a number, so that two names are compared as numbers; a longer one has 0.
#[derive(Clone, Copy)]
pub struct Name {
    pub long: bool,
    pub code: u64,
    pub next: usize,
}

// A number at a place, clamped where it is beyond every range.
#[derive(Clone, Copy)]
pub struct Number {
    pub value: i64,
    pub next: usize,
}

// Why a text is no line of a verb: it is longer than a line may be, or of another form.
#[derive(Clone, Copy)]
pub enum Unread {
    TooLong,
    Malformed,
}

// A time, or that a number is none.
#[derive(Clone, Copy)]
pub struct Time {
    pub beyond: bool,
    pub value: u32,
}

// A word at a place: its letters as one number, 0 for none that can be a keyword.
#[derive(Clone, Copy)]
pub struct Word {
    pub code: u64,
    pub next: usize,
}

// A written line.
#[derive(Clone, Copy)]
pub struct Line {}

impl Name {
    // How many bytes a name may have.
    pub const BYTES: usize = 8;

    // Returns Name::BYTES, which is the bound of the definitions.
    pub fn bytes() -> usize
        ensures { result ≡ max_name }
    {
        Name::BYTES
    }
}

impl Time {
    // The highest time.
    pub const TOP: u32 = 2147483647;

    // Returns Time::TOP, which is the bound of the definitions.
    pub fn top() -> u32
        ensures { result ≡ top }
    {
        Time::TOP
    }
}

impl Word {
    pub const STREAM: u64 = 0x73747265616d;

    pub const GRANT: u64 = 0x6772616e74;

    pub const CLOCK: u64 = 0x636c6f636b;

    pub const ROW: u64 = 0x726f77;

    pub const CLEAR: u64 = 0x636c656172;

    pub const CALLER: u64 = 0x63616c6c6572;

    pub const READ: u64 = 0x72656164;

    pub const MIN: u64 = 0x6d696e;

    pub const MAX: u64 = 0x6d6178;

    pub const COUNT: u64 = 0x636f756e74;

    pub const AVG: u64 = 0x617667;

    pub const SUM: u64 = 0x73756d;

    pub const OF: u64 = 0x6f66;

    pub const SHOW: u64 = 0x73686f77;

    pub const WHEN: u64 = 0x7768656e;

    pub const FROM: u64 = 0x66726f6d;

    pub const TO: u64 = 0x746f;

    pub const WINDOW: u64 = 0x77696e646f77;

    pub const ROLES: u64 = 0x726f6c6573;

    pub const SELF: u64 = 0x73656c66;

    pub const TIME: u64 = 0x74696d65;

    pub const FIGURE: u64 = 0x666967757265;

    pub const STAR: u64 = 0x2a;

    pub const ASK: u64 = 0x61736b;

    pub const LINE: u64 = 0x6c696e65;

    pub const IN: u64 = 0x696e;

    pub const PICK: u64 = 0x7069636b;

    pub const KEEP: u64 = 0x6b656570;

    pub const JOIN: u64 = 0x6a6f696e;

    pub const EQUAL: u64 = 0x3d;

    // Returns the word as a condition's head: 1 to 6 for the comparisons, 7 `and`, 8 `or`, 9 `not`.
    pub fn as_head(self) -> Option<u32>
        ensures { result ≡ head_given self.code }
    {
        match self.code {
            0x3d => Some(1),
            0x2f3d => Some(2),
            0x3c => Some(3),
            0x3c3d => Some(4),
            0x3e => Some(5),
            0x3e3d => Some(6),
            0x616e64 => Some(7),
            0x6f72 => Some(8),
            0x6e6f74 => Some(9),
            _ => None,
        }
    }

    // Returns the word as a right: 0 for `read`, 1 to 5 for the aggregates.
    pub fn as_right(self) -> Option<u32>
        ensures { result ≡ right_given self.code }
    {
        match self.code {
            Word::READ => Some(0),
            Word::MIN => Some(1),
            Word::MAX => Some(2),
            Word::COUNT => Some(3),
            Word::AVG => Some(4),
            Word::SUM => Some(5),
            _ => None,
        }
    }

    // Returns the word as a form's first word: 0 for `in`, 1 `pick`, 2 `keep`, 3 `join`, 5 to 9 for the aggregates.
    pub fn as_form(self) -> Option<u32>
        ensures { result ≡ form_given self.code }
    {
        match self.code {
            Word::IN => Some(0),
            Word::PICK => Some(1),
            Word::KEEP => Some(2),
            Word::JOIN => Some(3),
            Word::MIN => Some(5),
            Word::MAX => Some(6),
            Word::COUNT => Some(7),
            Word::AVG => Some(8),
            Word::SUM => Some(9),
            _ => None,
        }
    }
}

// Returns whether one of two tests holds.
pub fn either(a: bool, b: bool) -> bool
    ensures { result ≡ (a || b) }
{
    if a {
        return true;
    }
    b
}

// Returns the byte at a place, 0 past the end.
pub fn byte(s: &[u8], at: usize) -> u8
    ensures { result ≡ get_or s.now at 0 }
{
    if at < s.len() { s[at] } else { 0 }
}

// Returns the place after a byte that stands at a place.
pub fn skip(s: &[u8], at: usize, b: u8) -> Option<usize>
    ensures { result ≡ read_end s.now (byte b (drop at s.now)) }
{
    if s.len() <= at {
        return None;
    }
    if s[at] != b {
        return None;
    }
    Some(at + 1)
}

// A digit.
fn is_digit(b: u64) -> bool
    ensures { result ≡ digit b }
{
    if b < 48 {
        return false;
    }
    b <= 57
}

// Returns whether a byte is a lower-case letter.
pub fn is_letter(b: u64) -> bool
    ensures { result ≡ letter b }
{
    if b < 97 {
        return false;
    }
    b <= 122
}

// Returns whether a byte is a lower-case letter or a digit.
pub fn is_alnum(b: u64) -> bool
    ensures { result ≡ alnum b }
{
    if is_letter(b) {
        return true;
    }
    is_digit(b)
}

fn is_plain(b: u8) -> bool
    ensures { result ≡ plain b }
{
    match b {
        32 => false,
        40 => false,
        41 => false,
        _ => true,
    }
}

// Returns whether a byte is of a class.
pub fn in_class(b: u8, c: Class) -> bool
    ensures { result ≡ class_of c b }
{
    match c {
        Class::Alnum => is_alnum(b as u64),
        Class::Digit => is_digit(b as u64),
        Class::Plain => is_plain(b),
    }
}

// Returns the place after the run of bytes of a class that begins at a place: the place itself where the run is empty.
pub fn run_end(s: &[u8], at: usize, c: Class) -> usize
    ensures { result ≡ run_end c s.now at }
{
    for i in at..s.len() {
        if !in_class(s[i], c) {
            return i;
        }
    }
    at.max(s.len())
}

// At most eight bytes as one number, the first highest.
fn packed(word: &[u8]) -> u64
    requires { length word.now ≤ 8 }
    ensures { result ≡ code_of word.now }
{
    let mut code: u64 = 0;
    for b in word {
        code = code * 256 + (*b as u64);
    }
    code
}

// Returns the name at a place.
pub fn read_name(s: &[u8], at: usize) -> Option<Name>
    ensures { result ≡ name_found s.now at }
{
    if !is_letter(byte(s, at) as u64) {
        return None;
    }
    let end = run_end(s, at, Class::Alnum);
    if end - at <= Name::BYTES {
        return Some(Name {
            long: false,
            code: packed(&s[at..end]),
            next: end,
        });
    }
    Some(Name {
        long: true,
        code: 0,
        next: end,
    })
}

// A value with one digit more, up to what is far.
fn with_digit(v: u64, b: u8) -> u64
    requires { v ≤ far }
    ensures { result ≡ min (v * 10 + (b - 48)) far }
{
    (v * 10 + (b.saturating_sub(48) as u64)).min(4294967296)
}

// The value of digits, up to what is far.
fn value(digits: &[u8]) -> u64
    ensures { result ≡ min (value_from 0 digits.now) far }
{
    let mut v: u64 = 0;
    for b in digits {
        v = with_digit(v, *b);
    }
    v
}

// Where digits with no needless zero end that begin at a place.
fn numeral_end(s: &[u8], at: usize) -> Option<usize>
    ensures { result ≡ numeral_end s.now at }
{
    let end = run_end(s, at, Class::Digit);
    if end == at {
        return None;
    }
    if byte(s, at) != b'0' {
        return Some(end);
    }
    if end - at <= 1 {
        return Some(end);
    }
    None
}

// The number of the digits at a place, with no needless zero.
fn natural(s: &[u8], at: usize) -> Option<Number>
    ensures { result ≡ natural_found s.now at }
{
    let end = numeral_end(s, at)?;
    Some(Number {
        value: value(&s[at..end]) as i64,
        next: end,
    })
}

// Returns the number at a place: `-0` is none.
pub fn read_number(s: &[u8], at: usize) -> Option<Number>
    ensures { result ≡ number_found s.now at }
{
    let Some(digits) = skip(s, at, b'-') else {
        return natural(s, at);
    };
    let n = natural(s, digits)?;
    if n.value == 0 {
        return None;
    }
    Some(Number {
        value: 0 - n.value,
        next: n.next,
    })
}

impl Number {
    // The numbers of 32 bits.
    pub const LEAST: i64 = -2147483648;

    pub const MOST: i64 = 2147483647;

    // Returns the number where it is within 32 bits.
    pub fn kept(self) -> Option<i32>
        ensures { result ≡ value_given self.value }
    {
        let v = self.value;
        if v < Number::LEAST {
            return None;
        }
        if Number::MOST < v {
            return None;
        }
        Some(v as i32)
    }

    // Returns the number where it is a time.
    pub fn time(self) -> Option<u32>
        ensures { result ≡ time_given self.value }
    {
        let v = self.value;
        if v < 0 {
            return None;
        }
        if Number::MOST < v {
            return None;
        }
        Some(v as u32)
    }
}

// Returns the word at a place, up to a space or a bracket, where it can be a keyword: it has at most eight bytes, the first not 0.
pub fn read_word(s: &[u8], at: usize) -> Option<Word>
    ensures { result ≡ word_found s.now at }
{
    if byte(s, at) == 0 {
        return None;
    }
    let end = run_end(s, at, Class::Plain);
    if end == at {
        return None;
    }
    if Name::BYTES < end - at {
        return None;
    }
    Some(Word {
        code: packed(&s[at..end]),
        next: end,
    })
}

// Returns the word at a place, up to a space or a bracket, and the place after it; its code is 0 where it can be no keyword.
pub fn word_at(s: &[u8], at: usize) -> Word
    ensures { WordAt s.now at result }
{
    match read_word(s, at) {
        None => Word {
            code: 0,
            next: run_end(s, at, Class::Plain),
        },
        Some(w) => w,
    }
}

// Returns the place after an opening bracket and the word of a code.
pub fn opening(s: &[u8], at: usize, code: u64) -> Option<usize>
    ensures { result ≡ opening_end s.now at code }
{
    let w = read_word(s, skip(s, at, b'(')?)?;
    if w.code != code {
        return None;
    }
    Some(w.next)
}

// Returns the place after a space, an opening bracket and the word of a code.
pub fn part(s: &[u8], at: usize, code: u64) -> Option<usize>
    ensures { result ≡ part_end s.now at code }
{
    opening(s, skip(s, at, b' ')?, code)
}

// Returns whether a text ends with a closing bracket that stands at a place.
pub fn closes_at(s: &[u8], at: usize) -> bool
    ensures { result ≡ closes_at s.now at }
{
    if s.len() <= at {
        return false;
    }
    if s[at] != b')' {
        return false;
    }
    at + 1 == s.len()
}

impl Line {
    // How many bytes a written line may have.
    pub const BYTES: usize = 512;
    // How many of its brackets may be open at once.
    pub const DEPTH: usize = 8;

    // Returns Line::BYTES, which is the bound of the definitions.
    pub fn bytes() -> usize
        ensures { result ≡ max_line }
    {
        Line::BYTES
    }

    // Returns Line::DEPTH, which is the bound of the definitions.
    pub fn depth() -> usize
        ensures { result ≡ max_depth }
    {
        Line::DEPTH
    }

    // Returns the place after the first word of a line of a verb.
    pub fn after(s: &[u8], verb: u64) -> Result<usize, Unread>
        ensures { result ≡ line_after s.now verb }
    {
        if Line::BYTES < s.len() {
            return Err(Unread::TooLong);
        }
        opening(s, 0, verb).ok_or(Unread::Malformed)
    }
}

impl Unread {
    // Returns whether the text is longer than a line may be.
    pub fn long(self) -> bool
        ensures { result ≡ too_long self }
    {
        match self {
            Unread::TooLong => true,
            Unread::Malformed => false,
        }
    }
}
