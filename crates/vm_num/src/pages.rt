ghost use Rattle.std.specs.Prelude.{◌≡◌, ◌*◌, ◌^◌, ◌%◌, ◌<◌, ◌≤◌, ℕ};
ghost use Rattle.std.specs.Int.{div_ceil, next_multiple_of};

/// The bytes of a page of a guest's memory.
const PAGE_SIZE: u32 = 4096;

/// The least number of pages of 4096 bytes that hold `len` bytes.
pub fn pages_of(len: u32) -> u32
    ensures value { result ≡ div_ceil len 4096 }
    ensures holds { len ≤ result * 4096 }
    ensures least { (n : ℕ) → len ≤ n * 4096 → result ≤ n }
{
    len.div_ceil(PAGE_SIZE)
}

/// The least multiple of `a` that is `n` or more, for an `a` that is a power of two up to 4096.
pub fn align_up(n: u64, a: u64) -> u64
    // The numbers that divide 4096 are the powers of two up to 4096.
    requires power_of_two_up_to_4096 { 4096 % a ≡ 0 }
    requires small { n < 2 ^ 63 }
    ensures value { result ≡ next_multiple_of n a }
    ensures multiple { result % a ≡ 0 }
    ensures above { n ≤ result }
    ensures least { (m : ℕ) → n ≤ m → m % a ≡ 0 → result ≤ m }
{
    n.next_multiple_of(a)
}
