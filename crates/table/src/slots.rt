// Arrays with a slot for each subsystem, task or resource: the first n slots are used, and the others are padding. How the number of
// a slot is found is the caller's matter, who lends a function of the index. Every function here is proved, and the file assumes
// nothing.
ghost use Rattle.std.specs.Prelude.{◌≡◌, ℕ, ◌<◌, ◌≤◌};
ghost use Rattle.lists.specs.Range.{raised_from, padded};
ghost use Rattle.table.specs.Limits.{most};

use crate::Table;

// An array of the first n values, and `empty` in the slots past them.
pub fn filled<T: Copy, F: Fn(usize) -> T>(n: usize, empty: T, value: F) -> [T; Table::MOST]
    requires n_le_most { n ≤ most }
    requires callable { (s : ℕ) → s < n → F.pre value s }
    ensures { (f : ℕ → T) → ((s : ℕ) (x : T) → s < n → F.post value s x → x ≡ f s) → result ≡ padded f empty most n }
{
    let mut slots = [empty; Table::MOST];
    for s in 0..n {
        slots[s] = value(s);
    }
    slots
}

// Raises each of n slots from the ceiling on to the largest value at an index behind it. From the last slot back, that largest is
// known on the way; slots before the ceiling stay as they were.
pub fn raise_behind<F: Fn(usize) -> u32>(
    slots: &mut [u32; Table::MOST],
    n: usize,
    ceiling: usize,
    value: F,
)
    requires bounds { (ceiling < n) × (n ≤ most) }
    requires callable { (s : ℕ) → s < n → F.pre value s }
    ensures { (f a : ℕ → ℕ) → ((s x : ℕ) → s < n → F.post value s x → x ≡ f s) → slots.old ≡ padded a 0 most n → slots.new ≡ padded (raised_from f n a ceiling) 0 most n }
{
    let mut longest: u32 = 0;
    for s in (ceiling..n - 1).rev() {
        longest = value(s + 1).max(longest);
        slots[s] = longest.max(slots[s]);
    }
}
