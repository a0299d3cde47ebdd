ghost use Rattle.std.specs.Prelude.{◌≡◌, ◌+◌, ◌≤◌, ◌++◌, length, take, drop};
ghost use Rattle.std.specs.Int.{w16, w32, w64, from_le_bytes, to_le_bytes};

/// The number of two little-endian bytes that begin at `at`.
pub fn le16(b: &[u8], at: usize) -> u16
    requires { at + 2 ≤ length b.now }
    ensures { result ≡ from_le_bytes w16 (take 2 (drop at b.now)) }
{
    let mut field = [0; 2];
    field.copy_from_slice(&b[at..at + 2]);
    u16::from_le_bytes(field)
}

/// The number of four little-endian bytes that begin at `at`.
pub fn le32(b: &[u8], at: usize) -> u32
    requires { at + 4 ≤ length b.now }
    ensures { result ≡ from_le_bytes w32 (take 4 (drop at b.now)) }
{
    let mut field = [0; 4];
    field.copy_from_slice(&b[at..at + 4]);
    u32::from_le_bytes(field)
}

/// The number of eight little-endian bytes that begin at `at`.
pub fn le64(b: &[u8], at: usize) -> u64
    requires { at + 8 ≤ length b.now }
    ensures { result ≡ from_le_bytes w64 (take 8 (drop at b.now)) }
{
    let mut field = [0; 8];
    field.copy_from_slice(&b[at..at + 8]);
    u64::from_le_bytes(field)
}

/// Writes `v` as two little-endian bytes that begin at `at`, and changes no others.
pub fn put16(b: &mut [u8], at: usize, v: u16)
    requires { at + 2 ≤ length b.old }
    ensures { b.new ≡ take at b.old ++ (to_le_bytes w16 v ++ drop (at + 2) b.old) }
{
    b[at..at + 2].copy_from_slice(&v.to_le_bytes());
}

/// Writes `v` as four little-endian bytes that begin at `at`, and changes no others.
pub fn put32(b: &mut [u8], at: usize, v: u32)
    requires { at + 4 ≤ length b.old }
    ensures { b.new ≡ take at b.old ++ (to_le_bytes w32 v ++ drop (at + 4) b.old) }
{
    b[at..at + 4].copy_from_slice(&v.to_le_bytes());
}

/// Writes `v` as eight little-endian bytes that begin at `at`, and changes no others.
pub fn put64(b: &mut [u8], at: usize, v: u64)
    requires { at + 8 ≤ length b.old }
    ensures { b.new ≡ take at b.old ++ (to_le_bytes w64 v ++ drop (at + 8) b.old) }
{
    b[at..at + 8].copy_from_slice(&v.to_le_bytes());
}
