ghost use Rattle.std.specs.Prelude.{◌≡◌, ◌≤◌, ◌-◌, ◌++◌, length, replicate};

/// A text as a field of `N` bytes holds it: its bytes, with zeros behind them.
pub fn padded<const N: usize>(text: &str) -> [u8; N]
    requires { length text.now ≤ N }
    ensures { result ≡ text.now ++ replicate (N - length text.now) 0 }
{
    let mut field = [0; N];
    field[..text.len()].copy_from_slice(text.as_bytes());
    field
}
