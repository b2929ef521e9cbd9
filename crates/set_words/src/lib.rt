// Setting the words of a lent list to one value. Both are std's `fill`; they stay for their edits, which bend them for every
// map and lane.
#![tactic(auto)]

ghost use Rattle.std.specs.Prelude.{ℕ, ◌≤◌, ◌<◌, ◌≡◌, length, get_or};
ghost use Rattle.rules.specs.Calls.{Beyond};

// Every word set to one value.
pub fn set_all(words: &mut [u32], value: u32)
    ensures { (k : ℕ) → k < length words.old → get_or words.new k 0 ≡ value }
{
    words.fill(value);
}

// The first n words set to one value.
pub fn set_front(words: &mut [u32], n: usize, value: u32)
    requires { n ≤ length words.old }
    ensures front { (k : ℕ) → k < n → get_or words.new k 0 ≡ value }
    ensures beyond { Beyond n words.old words.new }
{
    words[..n].fill(value);
}
