//! What is asked of lists.
ghost use Rattle.std.specs.Prelude.{◌≡◌, ◌+◌, ◌<◌, ◌≤◌, ◌++◌, length, replicate, slice_set, vec_len, vec_capacity};

use std::collections::VecDeque;
use vm_frame::Held;

/// Makes a list one of so many times a value. There is room for them.
pub fn set_all(numbers: &mut Vec<u32>, count: u32, value: u32)
    requires { count ≤ vec_capacity numbers.old }
    ensures items { numbers.new.items ≡ replicate count value }
    ensures capacity { vec_capacity numbers.new ≡ vec_capacity numbers.old }
{
    numbers.clear();
    for _k in 0..count {
        numbers.push_reserved(value);
    }
}

/// Puts memories behind what `back` has, which has room for them.
pub fn put_back(mut fresh: VecDeque<Held>, back: &mut Vec<Held>)
    requires { vec_len back.old + length fresh.items ≤ vec_capacity back.old }
    ensures memories { back.new.items ≡ back.old.items ++ fresh.items }
    ensures room { vec_capacity back.new ≡ vec_capacity back.old }
{
    'frames: while let Some(held) = fresh.pop_front() {
        back.push_reserved(held);
    }
}

/// Sets the number at a place.
pub fn set_at(numbers: &mut Vec<u32>, place: u32, value: u32)
    requires { place < length numbers.old.items }
    ensures items { numbers.new.items ≡ slice_set numbers.old.items place value }
    ensures capacity { vec_capacity numbers.new ≡ vec_capacity numbers.old }
{
    numbers[place as usize] = value;
}
