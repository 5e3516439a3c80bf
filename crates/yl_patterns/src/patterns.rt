//! Lists of patterns.
ghost use Rattle.std.specs.Prelude.{◌≡◌, ◌≢◌, [], IfOk, OnOk, OnErr};
ghost use Rattle.std.specs.Str.{chars};
ghost use Rattle.yl_patterns.specs.Patterns.{Bad, is_among, line_of, with_line};

use crate::PatternFault;
use crate::fitting::fits;
use crate::reading::{Pattern, characters, read_line};
use std::alloc::{AllocError, Allocator};
use std::marker::Model;

/// Patterns of paths, as gitignore has them. The last one that a path fits decides.
#[derive(Drop)]
pub struct Patterns<A: Allocator> {
    patterns: Vec<Pattern<A>, A>,
}

impl<A: Allocator> Model for Patterns<A> {
    ghost use Rattle.std.specs.Prelude.{List, map};
    ghost use Rattle.yl_patterns.specs.Patterns.{PatternValue};

    ghost Value = { List PatternValue };

    ghost use Rattle.yl_patterns.specs.Answers.{pattern_value};

    ghost view = { λ p. map pattern_value p.patterns.items };
}

impl<A: Allocator + Copy> Patterns<A> {
    /// No patterns. It takes no memory.
    pub fn new(alloc: A) -> Patterns<A>
        ensures { result ≡ [] }
    {
        Patterns {
            patterns: Vec::new(alloc),
        }
    }

    /// Adds the pattern of a line, without the white space at both ends. A line that is empty, a comment or `/` says nothing. On a
    /// fault nothing changes.
    pub fn add(&mut self, line: &str) -> Result<(), PatternFault>
        ensures ok { OnOk result (self.new ≡ with_line self.old (line_of line.now)) }
        ensures good { OnOk result (line_of line.now ≢ Bad) }
        ensures bad { result ≡ Err PatternFault.BadPattern → line_of line.now ≡ Bad }
        ensures err { OnErr result (self.new ≡ self.old) }
    {
        let alloc = *self.patterns.allocator();
        let line = characters(alloc, line.trim())?;
        if let Some(pattern) = read_line(alloc, line.as_slice())? {
            self.patterns.push(pattern)?;
        }
        Ok(())
    }

    /// Whether a path is among these. Its names have `/` between them. The only error is out of memory.
    pub fn fits(&self, path: &str) -> Result<bool, AllocError>
        ensures { IfOk result (λ answer. answer ≡ is_among self.now (chars path.now)) }
    {
        if self.patterns.is_empty() {
            return Ok(false);
        }
        let alloc = *self.patterns.allocator();
        let path = characters(alloc, path)?;
        let mut row = vec![in alloc; false; path.len() + 1]?;
        let mut answer = false;
        for pattern in &self.patterns {
            if fits(
                pattern.items.as_slice(),
                path.as_slice(),
                row.as_mut_slice(),
            ) {
                answer = !pattern.takes_back;
            }
        }
        Ok(answer)
    }
}
