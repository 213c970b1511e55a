// A grant: a small struct of numbers, beside the words of its conditions. A C program may lend any numbers, so there is no enum in it.
#![tactic(auto)]

ghost use Rattle.std.specs.Prelude.{◌≡◌, [], ◌∷◌, ◌&&◌, not, min, leb, eqb, length};
ghost use Rattle.syntax.specs.Limits.{max_streams, max_grants, max_granted};
ghost use Rattle.masks.specs.Masks.{inside};
ghost use Rattle.nodes.specs.Nodes.{nodes_sound};
ghost use Rattle.grant.specs.Grants.{grant_words, places_of, streams_of, streams_mask, streams_sound, limit_sound, limits_sound, window_sound, grant_sound};

use schema::Stream;
use text::Time;

const COLUMNS: u32 = Stream::COLUMNS as u32;

// Returns the columns of a stream, as bits; a number of 4 or more is no stream.
pub fn stream_columns(names: &[u64], s: u32) -> u32
    ensures { result ≡ streams_mask names.now (s ∷ []) }
{
    if Stream::MOST <= s as usize {
        return 0;
    }
    let n = schema::width(names, s as usize) as u32;
    ((1 << n) - 1) << (s * COLUMNS)
}

// Returns the columns of the first `count` streams of four places, as bits.
pub fn columns_mask(names: &[u64], count: u32, streams: [u32; Stream::MOST]) -> u32
    ensures { result ≡ streams_mask names.now (places_of count streams) }
{
    let n = (count as usize).min(Stream::MOST);
    let mut m = 0;
    for s in &streams[..n] {
        m = masks::either(m, stream_columns(names, *s));
    }
    m
}

// A time, or the number that stands for none.
fn is_limit(n: u32) -> bool
    ensures { result ≡ limit_sound n }
{
    if n <= Time::TOP {
        return true;
    }
    n == Grant::NONE
}

// The role by its name's number; the right (0 read, 1 min, 2 max, 3 count, 4 avg, 5 sum); `count` streams by number; the shown columns as bits,
// six places a stream; how many words its conditions take; its first and last time, or Grant::NONE; the least SIZE and OFFSET.
#[repr(C)]
#[derive(Clone, Copy)]
pub struct Grant {
    pub role: u64,
    pub right: u32,
    pub count: u32,
    pub streams: [u32; Stream::MOST],
    pub shown: u32,
    pub words: u32,
    pub from: u32,
    pub to: u32,
    pub size: u32,
    pub offset: u32,
}

impl Grant {
    // How many grants a catalogue may have.
    pub const GRANTS: usize = 24;
    // Words lent for the conditions of one: each word of them takes five bytes of its line or more.
    pub const PLACE: usize = 95;
    // Words lent for the conditions of all of them.
    pub const WORDS: usize = Grant::GRANTS * Grant::PLACE;
    // How many streams a grant may name.
    pub const STREAMS: u32 = 2;
    // No first or last time.
    pub const NONE: u32 = 4294967295;
    // The bits of what may stand on the right of a comparison beside columns: a number and a profile entry.
    pub const OTHERS: u32 = 201326592;
    // The right to read.
    pub const READ: u32 = 0;
    // The last of the rights.
    pub const SUM: u32 = 5;

    // Returns Grant::GRANTS, which is the bound of the definitions.
    pub fn grants() -> usize
        ensures { result ≡ max_grants }
    {
        Grant::GRANTS
    }

    // Returns Grant::STREAMS, which is the bound of the definitions.
    pub fn granted() -> u32
        ensures { result ≡ max_granted }
    {
        Grant::STREAMS
    }

    // Returns Grant::PLACE, which is enough for every line.
    pub fn place() -> usize
        ensures { result ≡ grant_words }
    {
        Grant::PLACE
    }

    // The columns of its streams.
    fn columns(self, names: &[u64]) -> u32
        ensures { result ≡ streams_mask names.now (streams_of self) }
    {
        let streams = self.streams;
        columns_mask(names, self.count, streams)
    }

    // One or two streams that are declared, none twice.
    fn streams_sound(self, names: &[u64]) -> bool
        ensures { result ≡ streams_sound names.now self }
    {
        if self.count == 0 {
            return false;
        }
        if Grant::STREAMS < self.count {
            return false;
        }
        let n = schema::streams(names);
        let first = self.streams[0];
        if n <= first as usize {
            return false;
        }
        if self.count == 1 {
            return true;
        }
        let second = self.streams[1];
        if n <= second as usize {
            return false;
        }
        first != second
    }

    // It shows a column or more, of a mask.
    fn shown_sound(self, mask: u32) -> bool
        ensures { result ≡ (not (eqb self.shown 0) && inside self.shown mask) }
    {
        if self.shown == 0 {
            return false;
        }
        masks::within(self.shown, mask)
    }

    // Its limits are times, and `from` is not above `to`.
    fn limits_sound(self) -> bool
        ensures { result ≡ limits_sound self }
    {
        if !is_limit(self.from) {
            return false;
        }
        if !is_limit(self.to) {
            return false;
        }
        if self.from == Grant::NONE {
            return true;
        }
        self.from <= self.to
    }

    // A right, and a window where it may have one: a reading grant has none.
    fn window_sound(self) -> bool
        ensures { result ≡ window_sound self }
    {
        if Grant::SUM < self.right {
            return false;
        }
        if self.right == Grant::READ {
            if self.size != 0 {
                return false;
            }
            return self.offset == 0;
        }
        if Time::TOP < self.size {
            return false;
        }
        self.offset <= Time::TOP
    }

    // Its words are there, and are those of conditions over the columns of a mask.
    fn when_sound(self, words: &[u32], mask: u32) -> bool
        ensures { result ≡ (leb self.words grant_words && leb self.words (length words.now) && nodes_sound mask words.now self.words) }
    {
        let n = self.words as usize;
        if Grant::PLACE < n {
            return false;
        }
        if words.len() < n {
            return false;
        }
        nodes::nodes_sound(words, n, mask)
    }

    // Returns whether it may be lent with the words of its conditions (refusal 12).
    pub fn sound(self, names: &[u64], words: &[u32]) -> bool
        ensures { result ≡ grant_sound names.now self words.now }
    {
        if !schema::valid_name(self.role) {
            return false;
        }
        if !self.streams_sound(names) {
            return false;
        }
        let mask = self.columns(names);
        if !self.shown_sound(mask) {
            return false;
        }
        if !self.limits_sound() {
            return false;
        }
        if !self.window_sound() {
            return false;
        }
        self.when_sound(words, mask)
    }
}
