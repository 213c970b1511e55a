// Columns in an order, as one number: five bits a column, its code and one, the last column lowest.
#![tactic(auto)]

ghost use Rattle.std.specs.Prelude.{◌≡◌, cond, reverse, ◌-◌, ◌%◌, length, get_or};
ghost use Rattle.lists.specs.Lists.{select};
ghost use Rattle.masks.specs.Masks.{bit?, mask_of};
ghost use Rattle.orders.specs.Orders.{max_order, max_codes, order_end, codes_in, with_code, order_from, order_of, order_within};

// An order of columns, and its bounds.
#[derive(Clone, Copy)]
pub struct Order {
    pub columns: u64,
}

impl Order {
    // How many columns an order may have.
    pub const MOST: u32 = 12;
    // How many columns streams have, whose codes are the numbers below.
    pub const CODES: u32 = 24;
    // What a column takes of the number, and one past the highest code that has room there.
    pub const PLACE: u64 = 32;

    pub const CODE_END: u32 = 31;
    // One past the highest number, and one past the highest that has room for a column more.
    pub const END: u64 = 1152921504606846976;

    pub const ROOM: u64 = Order::END / Order::PLACE;

    // Returns Order::CODES, which is the bound of the definitions.
    pub fn codes() -> u32
        ensures { result ≡ max_codes }
    {
        Order::CODES
    }

    // Returns Order::END, which is the bound of the definitions.
    pub fn end() -> u64
        ensures { result ≡ order_end }
    {
        Order::END
    }
}

// Returns Order::MOST, which is the bound of the definitions.
pub fn most() -> u32
    ensures { result ≡ max_order }
{
    Order::MOST
}

// Returns the order with one column more at the end; as it is where there is no room, or no such code.
pub fn with_code(order: u64, code: u32) -> u64
    ensures { result ≡ with_code order code }
{
    if Order::ROOM <= order {
        return order;
    }
    if Order::CODE_END <= code {
        return order;
    }
    order * Order::PLACE + (code as u64 + 1)
}

// The code of the last column of an order.
fn last(order: u64) -> u32
    ensures { result ≡ order % 32 - 1 }
{
    let d = order % Order::PLACE;
    if d == 0 {
        return 0;
    }
    (d - 1) as u32
}

// Returns how many columns an order has.
pub fn count(order: u64) -> u32
    ensures { result ≡ length (codes_in order) }
{
    let mut m = order;
    for n in 0..Order::MOST {
        if m == 0 {
            return n;
        }
        m /= Order::PLACE;
    }
    Order::MOST
}

// Returns the code of column i, 0 where there is no such column.
pub fn code_at(order: u64, i: u32) -> u32
    ensures { result ≡ get_or (codes_in order) i 0 }
{
    let n = count(order);
    if n <= i {
        return 0;
    }
    let mut m = order;
    for _k in i + 1..n {
        m /= Order::PLACE;
    }
    last(m)
}

// Returns the columns of an order as bits.
pub fn mask_of(order: u64) -> u32
    ensures { result ≡ mask_of (codes_in order) }
{
    let mut m = order;
    let mut mask: u32 = 0;
    for _n in 0..Order::MOST {
        if m == 0 {
            return mask;
        }
        mask = masks::with(mask, last(m));
        m /= Order::PLACE;
    }
    mask
}

// Returns the order with one column more where a mask has it.
pub fn with_shown(order: u64, mask: u32, code: u32) -> u64
    ensures { result ≡ cond (bit? mask code) (with_code order code) order }
{
    if masks::shows(mask, code) {
        return with_code(order, code);
    }
    order
}

// The columns of one order, then those of another from its last to its first.
fn turned(a: u64, b: u64) -> u64
    ensures { result ≡ order_from a (reverse (codes_in b)) }
{
    let mut m = a;
    let mut rest = b;
    for _n in 0..Order::MOST {
        if rest == 0 {
            return m;
        }
        m = with_code(m, last(rest));
        rest /= Order::PLACE;
    }
    m
}

// The columns of an order that a mask has, from its last to its first.
fn turned_within(order: u64, mask: u32) -> u64
    ensures { result ≡ order_of (select (bit? mask) (reverse (codes_in order))) }
{
    let mut m: u64 = 0;
    let mut rest = order;
    for _n in 0..Order::MOST {
        if rest == 0 {
            return m;
        }
        m = with_shown(m, mask, last(rest));
        rest /= Order::PLACE;
    }
    m
}

// Returns the columns of an order that a mask has.
pub fn within(order: u64, mask: u32) -> u64
    ensures { result ≡ order_within mask order }
{
    turned(0, turned_within(order, mask))
}

// Returns the columns of one order, then those of another, as far as there is room.
pub fn joined(a: u64, b: u64) -> u64
    ensures { result ≡ order_from a (codes_in b) }
{
    turned(a, turned(0, b))
}
