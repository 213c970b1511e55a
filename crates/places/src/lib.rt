// What stands at a place of lent numbers; 0 past the last.
#![tactic(auto)]

ghost use Rattle.std.specs.Prelude.{◌≡◌, get_or};

// Returns the word at a place.
pub fn word_at(words: &[u32], i: u32) -> u32
    ensures { result ≡ get_or words.now i 0 }
{
    word_in(words, i as usize)
}

// Returns the word at a place that is counted as slices are.
pub fn word_in(words: &[u32], i: usize) -> u32
    ensures { result ≡ get_or words.now i 0 }
{
    if words.len() <= i {
        return 0;
    }
    words[i]
}

// Returns the number at a place.
pub fn number_at(numbers: &[u64], i: usize) -> u64
    ensures { result ≡ get_or numbers.now i 0 }
{
    if numbers.len() <= i {
        return 0;
    }
    numbers[i]
}
