//! Which lines are built.

ghost use Rattle.std.specs.Prelude.{◌≡◌, map};
ghost use Rattle.vm_script.specs.Verbs.{is_built_line};

/// The first word of the lines that aren't built.
const RAW: &[u8] = b"raw";

/// Whether the line of these words is built. A line whose first word is unknown is judged as a
/// statement, as built ones are.
pub fn is_built_line(words: &[&[u8]]) -> bool
    ensures { result ≡ is_built_line (map (λ word. word.now) words.now) }
{
    match words.split_first() {
        Some((first, _words)) => *first != RAW,
        None => true,
    }
}
