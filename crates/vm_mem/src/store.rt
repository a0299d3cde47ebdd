ghost use Rattle.std.specs.Prelude.{◌≡◌, ◌+◌, ◌<◌, ◌≤◌, ◌++◌, List, ℕ, length, take, drop, slice_index, slice_set};

/// A run of bytes of fixed length, however it is kept. Places count from 0.
///
/// Source: own.
pub trait Store {
    /// What `rest_of` says.
    ghost Rest: { Type 0 };

    /// The bytes in order.
    ghost bytes_of: { Self → List ℕ };

    /// What the store is besides its bytes, as a page's number: no call changes it.
    ghost rest_of: { Self → Rest };

    /// How many bytes there are.
    fn size(&self) -> u32
        ensures { result ≡ length (bytes_of self.now) };

    /// The byte at `i`.
    fn get(&self, i: u32) -> u8
        requires { i < length (bytes_of self.now) }
        ensures { result ≡ slice_index (bytes_of self.now) i };

    /// Sets the byte at `i`, and no other.
    fn set(&mut self, i: u32, b: u8)
        requires { i < length (bytes_of self.old) }
        ensures bytes { bytes_of self.new ≡ slice_set (bytes_of self.old) i b }
        ensures rest { rest_of self.new ≡ rest_of self.old };

    /// Fills `into` with the bytes from `at` on.
    fn copy_out(&self, at: u32, into: &mut [u8])
        requires { at + length into.old ≤ length (bytes_of self.now) }
        ensures { into.new ≡ take (length into.old) (drop at (bytes_of self.now)) }
    {
        // The size fits its type, so no place wraps.
        let _size = self.size();
        let mut place = at;
        for byte in into.iter_mut() {
            *byte = self.get(place);
            place += 1;
        }
    }

    /// Sets the bytes from `at` on to those of `from`, and no others.
    fn copy_in(&mut self, at: u32, from: &[u8])
        requires { at + length from.now ≤ length (bytes_of self.old) }
        ensures bytes { bytes_of self.new ≡ take at (bytes_of self.old) ++
            (from.now ++ drop (at + length from.now) (bytes_of self.old)) }
        ensures rest { rest_of self.new ≡ rest_of self.old }
    {
        // The size fits its type, so no place wraps.
        let _size = self.size();
        let mut place = at;
        for byte in from {
            self.set(place, *byte);
            place += 1;
        }
    }
}
