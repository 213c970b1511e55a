// Tables of forms: a checked query's by value, passed from the checker to the router and the rewriter; a rewritten query's in lent words.
#![tactic(auto)]

ghost use Rattle.std.specs.Prelude.{◌≡◌, min, eqb, length, get_or};
ghost use Rattle.syntax.specs.Limits.{max_forms, max_rewritten};
ghost use Rattle.query.specs.Forms.{rows_form, keep_of, form_order, under_form};
ghost use Rattle.query.specs.Tables.{blank, query_forms, new_query, QueryWith, table_words, forms_in, held, rewritten_with};

// How many forms a rewritten query may have, and how many words are lent for them.
pub const TABLE_FORMS: u32 = 16;

pub const TABLE_WORDS: usize = TABLE_FORMS as usize * Form::WORDS;

// What a half of an order is below.
const HALF: u64 = 4294967296;

// One form of a query, by kind:
// rows: its stream's number in `first`; pick: where the words of its condition end in `first`; keep: the order of its columns, the low half in `third`, the high half in `fourth`;
// join: its two columns by code in `first` and `second`; aggregate: its number (1 min, 2 max, 3 count, 4 avg, 5 sum) in `first`, its column's code in `second`,
// SIZE and OFFSET in `third` and `fourth`; under, which only a rewritten query has: a grant's place in the catalogue in `first`, how many words its
// conditions take in `second`, its first and last time in `third` and `fourth`. All else is 0.
#[derive(Clone, Copy)]
pub struct Form {
    pub kind: u32,
    pub first: u32,
    pub second: u32,
    pub third: u32,
    pub fourth: u32,
}

impl Form {
    pub const ROWS: u32 = 0;

    pub const PICK: u32 = 1;

    pub const KEEP: u32 = 2;

    pub const JOIN: u32 = 3;

    pub const AGGREGATE: u32 = 4;

    pub const UNDER: u32 = 5;

    // How many words a form takes: its fields, in their order.
    pub const WORDS: usize = 5;

    // Returns whether it is a stream's rows.
    pub fn is_rows(self) -> bool
        ensures { result ≡ eqb self.kind rows_form }
    {
        self.kind == Form::ROWS
    }

    // Returns the rows of a stream.
    pub fn rows(stream: u32) -> Self
        ensures { result ≡ record { kind = rows_form; first = stream; second = 0; third = 0; fourth = 0 } }
    {
        Form {
            kind: Form::ROWS,
            first: stream,
            second: 0,
            third: 0,
            fourth: 0,
        }
    }

    // Returns a keep of the columns of an order.
    pub fn keep(order: u64) -> Self
        ensures { result ≡ keep_of order }
    {
        Form {
            kind: Form::KEEP,
            first: 0,
            second: 0,
            third: (order % HALF) as u32,
            fourth: (order / HALF) as u32,
        }
    }

    // Returns the order of a keep's columns.
    pub fn order(self) -> u64
        ensures { result ≡ form_order self }
    {
        self.third as u64 + self.fourth as u64 * HALF
    }

    // Returns the conditions and times of the grant in a place of the catalogue.
    pub fn under(place: u32, words: u32, from: u32, to: u32) -> Self
        ensures { result ≡ record { kind = under_form; first = place; second = words; third = from; fourth = to } }
    {
        Form {
            kind: Form::UNDER,
            first: place,
            second: words,
            third: from,
            fourth: to,
        }
    }
}

// A query: its first `len` forms.
#[derive(Clone, Copy)]
pub struct Query {
    pub forms: [Form; Query::FORMS as usize],
    pub len: u32,
}

impl Query {
    // How many forms a query may have.
    pub const FORMS: u32 = 12;

    // Returns Query::FORMS, which is the bound of the definitions.
    pub fn most() -> u32
        ensures { result ≡ max_forms }
    {
        Query::FORMS
    }

    // Returns a query with no form.
    pub fn new() -> Self
        ensures { result ≡ new_query }
    {
        let f = Form::rows(0);
        Query {
            forms: [f; Query::FORMS as usize],
            len: 0,
        }
    }

    // Returns the query with a form more at the end; as it is where it has all the forms that it may have.
    pub fn with(self, f: Form) -> Self
        ensures { QueryWith self f result }
    {
        let at = self.len;
        if Query::FORMS <= at {
            return self;
        }
        let mut next = self;
        next.forms[at as usize] = f;
        next.len = at + 1;
        next
    }

    // Returns how many forms it has.
    pub fn count(self) -> u32
        ensures { result ≡ length (query_forms self) }
    {
        if Query::FORMS <= self.len {
            return Query::FORMS;
        }
        self.len
    }

    // Returns form i, a form of zeros where there is no such form.
    pub fn form(self, i: u32) -> Form
        ensures { result ≡ get_or (query_forms self) i blank }
    {
        if self.count() <= i {
            return Form::rows(0);
        }
        self.forms[i as usize]
    }
}

// ---- a rewritten query's forms, in words

// Returns TABLE_FORMS, which is the bound of the definitions.
pub fn table_forms() -> u32
    ensures { result ≡ max_rewritten }
{
    TABLE_FORMS
}

// Returns TABLE_WORDS, which is the number of the definitions.
pub fn table_words() -> usize
    ensures { result ≡ table_words }
{
    TABLE_WORDS
}

// Returns the number of forms with one more after the first n; n where there are all that there may be, or fewer words than a table has.
// Leaves the form's words in its place, and all else as it was.
pub fn put_form(table: &mut [u32], n: u32, f: Form) -> u32
    ensures { held table.new result ≡ rewritten_with (held table.old n) f }
{
    if TABLE_FORMS <= n {
        return n;
    }
    if table.len() < TABLE_WORDS {
        return n;
    }
    let k = n as usize * Form::WORDS;
    table[k] = f.kind;
    table[k + 1] = f.first;
    table[k + 2] = f.second;
    table[k + 3] = f.third;
    table[k + 4] = f.fourth;
    n + 1
}

// Returns how many forms stand in a table of n: as many as it may have where n is above.
pub fn count_in(n: u32) -> u32
    ensures { result ≡ min n max_rewritten }
{
    if TABLE_FORMS <= n {
        return TABLE_FORMS;
    }
    n
}

// Returns form i of the first n, a form of zeros where there is no such form.
pub fn form_in(table: &[u32], n: u32, i: u32) -> Form
    ensures { result ≡ get_or (forms_in table.now n) i blank }
{
    if count_in(n) <= i {
        return Form::rows(0);
    }
    let k = i as usize * Form::WORDS;
    Form {
        kind: places::word_in(table, k),
        first: places::word_in(table, k + 1),
        second: places::word_in(table, k + 2),
        third: places::word_in(table, k + 3),
        fourth: places::word_in(table, k + 4),
    }
}
