// Numbers as bytes, high byte first: one that is read out of a field's value, and one or several that are put into a buffer.
// Assumes nothing.
ghost use mathlib.Core.List.{flat_map};
ghost use Rattle.std.specs.Prelude.{◌≡◌, ◌+◌, ◌*◌, ◌≤◌, length};
ghost use Rattle.stored.specs.Numbers.{number_size, number_at};
ghost use Rattle.stored.specs.File.{number_bytes};
ghost use Rattle.stored.specs.Write.{IsPut};

// How many bytes a number takes.
pub const NUMBER: usize = 4;

// The number that the four bytes from `at` on spell.
#[tactic(auto, unfolding(crate::specs::Numbers::number_at, crate::specs::Numbers::spelled))]
pub fn number_at(value: &[u8], at: usize) -> u32
    requires { at + 4 ≤ length value.now }
    ensures { result ≡ number_at value.now at }
{
    u32::from_be_bytes([value[at], value[at + 1], value[at + 2], value[at + 3]])
}

// Puts the four bytes of x at the start of the free bytes.
pub fn put_number(free: &mut [u8], x: u32) -> usize
    requires { number_size ≤ length free.old }
    ensures { IsPut (number_bytes x) free.old free.new result }
{
    free[..NUMBER].copy_from_slice(&x.to_be_bytes());
    NUMBER
}

// Puts several numbers, one after another.
pub fn put_numbers(free: &mut [u8], numbers: &[u32]) -> usize
    requires { number_size * length numbers.now ≤ length free.old }
    ensures { IsPut (flat_map number_bytes numbers.now) free.old free.new result }
{
    let mut at = 0;
    for &x in numbers {
        at += put_number(&mut free[at..], x);
    }
    at
}
