ghost use Rattle.std.specs.Prelude.{◌≡◌};
ghost use Rattle.v4l_rules.specs.Queues.{place_in};

/// The place of a buffer type among those of a model, behind them all where it is none of them.
///
/// Source: own.
pub fn place_in(types: &[u32], t: u32) -> usize
    ensures { result ≡ place_in types.now t }
{
    for (place, kind) in types.iter().enumerate() {
        if *kind == t {
            return place;
        }
    }
    types.len()
}
