// Columns as bits of an unsigned mask.
#![tactic(auto)]

ghost use Rattle.std.specs.Prelude.{◌≡◌};
ghost use Rattle.std.specs.Int.Bits.{bit_or};
ghost use Rattle.masks.specs.Masks.{bit?, with_bit, inside};

// Returns whether bit i is set.
pub fn shows(m: u32, i: u32) -> bool
    ensures { result ≡ bit? m i }
{
    if 32 <= i {
        return false;
    }
    (m >> i) % 2 == 1
}

// Returns the mask with bit i set; as it is where there is no such bit.
pub fn with(m: u32, i: u32) -> u32
    ensures { result ≡ with_bit m i }
{
    if i < 32 {
        return m | (1 << i);
    }
    m
}

// Returns the bits of both.
pub fn either(m: u32, n: u32) -> u32
    ensures { result ≡ bit_or m n }
{
    m | n
}

// Returns whether every bit of m is set in n.
pub fn within(m: u32, n: u32) -> bool
    ensures { result ≡ inside m n }
{
    m & n == m
}
