ghost use Rattle.std.specs.Prelude.{◌≡◌, ◌<◌, ◌+◌, ◌^◌, ◌++◌, ◌∷◌, [], length, OnOk, OnErr};
ghost use Rattle.transcript.specs.Lines.{text_of, Lacks};

use memory_core::Memory;
use std::alloc::Global;
use std::marker::Model;

/// The body of an answer. Contracts see it as its lines, without their line feeds.
#[derive(Debug, Drop)]
pub struct Body {
    text: Vec<u8>,
    lines: u32,
}

impl Model for Body {
    ghost use Rattle.std.specs.Prelude.{List, ℕ};
    ghost use Rattle.transcript.specs.Lines.{lines_in, HasWholeLines};

    ghost Value = { List (List ℕ) };

    ghost view = { λ s. lines_in s.text.items };

    ghost invariant = { λ s. HasWholeLines s.text.items s.lines };
}

impl Body {
    /// The body without lines. It takes no memory.
    pub fn new(alloc: Global) -> Body
        ensures { result ≡ [] }
    {
        Body {
            text: Vec::new(alloc),
            lines: 0,
        }
    }

    /// How many lines there are.
    pub fn lines(&self) -> u32
        ensures { result ≡ length self.now }
    {
        self.lines
    }

    /// The text: each line, ended by a line feed.
    pub fn text(&self) -> &[u8]
        ensures { result.now ≡ text_of self.now }
    {
        &self.text
    }

    /// Puts a line at the end. Where there is no memory the body stays.
    pub fn push_line(&mut self, line: &[u8]) -> Result<(), Memory>
        requires one_line { Lacks 10 line.now }
        requires few { length self.old + 1 < 2 ^ 32 }
        ensures ok { OnOk result (self.new ≡ self.old ++ line.now ∷ []) }
        ensures err { OnErr result (self.new ≡ self.old) }
    {
        push_ended(&mut self.text, line)?;
        self.lines += 1;
        Ok(())
    }
}

/// Puts a line and a line feed at the end of a text, which stays where there is no memory.
fn push_ended(text: &mut Vec<u8>, line: &[u8]) -> Result<(), Memory>
    ensures ok { OnOk result (text.new.items ≡ text.old.items ++ (line.now ++ 10 ∷ [])) }
    ensures err { OnErr result (text.new.items ≡ text.old.items) }
{
    text.reserve(line.len() + 1)?;
    if text.extend_from_slice(line).is_err() || text.push(b'\n').is_err() {
        unreachable!()
    }
    Ok(())
}
