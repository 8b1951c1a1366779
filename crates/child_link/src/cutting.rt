ghost use Rattle.std.specs.Prelude.{◌≡◌, ◌≤◌, ◌==◌, ◌++◌, ◌∷◌, [], IfOk, length, take, List, ℕ};
ghost use Rattle.child_link.specs.Lines.{handed_on, stated};
ghost use Rattle.child_link.specs.Cutting.{kept_line, kept_with};

use scm_text::{Buffer, OutOfMemory};
use std::alloc::Global;
use std::marker::Model;

/// How many bytes of a line are kept before its feed. No report and no control is longer.
const KEPT: usize = 4096;

/// A line that comes byte by byte. Contracts see what is kept of it: its first 4,096 bytes, and
/// then its line feed.
#[derive(Drop)]
pub struct LineCutter {
    line: Buffer<u8>,
}

impl Model for LineCutter {
    ghost use Rattle.std.specs.Prelude.{◌≤◌, ◌+◌, ℕ, List, length};

    ghost Value = { List ℕ };

    ghost view = { λ c. c.line.items };

    ghost invariant = { λ c. 4097 ≤ c.line.room + length c.line.items };
}

impl LineCutter {
    /// No byte has come yet.
    pub fn new(alloc: Global) -> Result<LineCutter, OutOfMemory>
        ensures { IfOk result (λ cutter. cutter ≡ []) }
    {
        Ok(LineCutter {
            line: Buffer::with_room(alloc, KEPT + 1)?,
        })
    }

    /// Takes a byte, and tells whether it ends the line.
    pub fn take(&mut self, byte: u8) -> bool
        requires { length self.old ≤ 4096 }
        ensures ends { result ≡ (byte == 10) }
        ensures kept { self.new ≡ kept_with self.old byte }
    {
        if byte == b'\n' {
            self.line.push(byte);
            return true;
        }
        if self.line.as_slice().len() < KEPT {
            self.line.push(byte);
        }
        false
    }

    /// What is kept of the line.
    pub fn line(&self) -> &[u8]
        ensures { result.now ≡ self.now }
    {
        self.line.as_slice()
    }

    /// Begins the next line.
    pub fn clear(&mut self)
        ensures { self.new ≡ [] }
    {
        self.line.clear();
    }
}

/// What is kept of a line is read as the whole line is.
pub fn kept_lines_are_read()
    ensures reports { (front : List ℕ) → stated (kept_line front) ≡ stated (front ++ 10 ∷ []) }
    ensures controls { (front : List ℕ) → handed_on (kept_line front) ≡ handed_on (front
        ++ 10 ∷ []) }
{}
