//! Which words of a script stand in which handle's log.

ghost use Rattle.std.specs.Prelude.{◌≡◌, [], ◌∷◌, ◌++◌, OnOk, IfOk, map};
ghost use Rattle.vm_script.specs.Lines.{echoes_from};
ghost use Rattle.vm_output.specs.Echoes.{with_echo};

use std::alloc::Global;
use std::marker::Model;
use vm_local::Name;
use vm_mem::Memory;
use vm_script::{Echo, Line, LineKind};

/// The words of the lines on one handle, in order.
#[derive(Drop)]
pub struct Echoes<'a> {
    echoes: Vec<&'a Echo>,
}

impl<'a> Model for Echoes<'a> {
    ghost use Rattle.std.specs.Prelude.{ℕ, List, map};

    ghost Value = { List (List ℕ) };

    ghost view = { λ e. map (λ x. x.now) e.echoes.items };
}

impl<'a> Echoes<'a> {
    fn new(alloc: Global) -> Echoes<'a>
        ensures { result ≡ [] }
    {
        Echoes {
            echoes: Vec::new(alloc),
        }
    }

    /// The words, a line each.
    pub fn lines(&self) -> &[&'a Echo]
        ensures { map (λ e. e.now) result.now ≡ self.now }
    {
        &self.echoes
    }

    // Adds the words of one more line.
    fn add(&mut self, echo: &'a Echo) -> Result<(), Memory>
        ensures { OnOk result (self.new ≡ self.old ++ echo.now ∷ []) }
    {
        self.echoes.push(echo)?;
        Ok(())
    }
}

// For each handle no words.
#[tactic(auto, using(crate::proofs::EchoLemmas::names_more))]
fn no_echoes<'a>(alloc: Global, names: &[Name]) -> Result<Vec<Echoes<'a>>, Memory>
    ensures { IfOk result (λ words. words.items ≡ echoes_from 0 names.now []) }
{
    let mut words = Vec::new(alloc);
    for _name in names {
        words.push(Echoes::new(alloc))?;
    }
    Ok(words)
}

// Adds a line's words to those of its handle.
fn add_line<'a>(words: &mut [Echoes<'a>], line: &'a Line) -> Result<(), Memory>
    ensures { OnOk result (words.new ≡ with_echo words.old line.now.echo line.now.what) }
{
    match line.what {
        LineKind::OnHandle { h, .. } if (h as usize) < words.len() => {
            words[h as usize].add(&line.echo)
        }
        _ => Ok(()),
    }
}

/// The words of the lines, handle by handle.
///
/// # Errors
/// `Memory` where there is none for them.
pub fn group_echoes<'a>(
    alloc: Global,
    names: &[Name],
    lines: &'a [Line],
) -> Result<Vec<Echoes<'a>>, Memory>
    ensures { IfOk result (λ words. words.items ≡ echoes_from 0 names.now lines.now) }
{
    let mut words = no_echoes(alloc, names)?;
    for line in lines {
        add_line(&mut words, line)?;
    }
    Ok(words)
}
