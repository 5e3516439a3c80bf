//! Follows cases, one after another.
use crate::printed::{show_fault, show_rules};
use crate::reading::{Base, are_same_when_refused, base_named, is_same_when_refused, project_of};
use std::alloc::{AllocError, Global};
use std::mem;
use test_cases::{Cases, NextText, first_word, say};
use yl_devices::{RunFault, text_of};
use yl_project::{Named, Project};

/// The last configuration that was read, and what the next one is read with.
#[derive(Drop)]
pub struct State {
    alloc: Global,
    project: Project<Global>,
    base: Base,
    next: NextText,
    lines: Vec<u8>,
}

impl State {
    /// Creates a state in which no configuration was read. The only error is out of memory.
    pub fn new(alloc: Global) -> Result<State, AllocError> {
        Ok(State {
            alloc,
            project: Project::empty(alloc)?,
            base: Base::Empty,
            next: NextText::new(alloc),
            lines: Vec::new(alloc),
        })
    }

    // Takes the project over which the next configuration is read.
    fn take_base(&mut self) -> Result<Project<Global>, AllocError> {
        let empty = Project::empty(self.alloc)?;
        let last = mem::replace(&mut self.project, empty);
        if self.base == Base::Last {
            Ok(last)
        } else {
            project_of(self.alloc, self.base)
        }
    }

    // Reads a configuration, and prints the result.
    fn read(&mut self, rt: &HostRuntime, text: &[u8]) -> Result<(), RunFault> {
        let base = self.take_base()?;
        let lines = text_of(self.lines.as_slice()).unwrap_or("");
        if self.base != Base::Last && !is_same_when_refused(self.alloc, self.base, text, lines) {
            say(rt, "is read otherwise where memory is refused")?;
        }
        match Project::read(self.alloc, text, base, lines) {
            Ok(project) => {
                self.project = project;
                say(rt, "= read")
            }
            Err(fault) => show_fault(rt, fault),
        }
    }

    // Prints the files that a configuration names.
    fn show_named(&self, rt: &HostRuntime, text: &[u8]) -> Result<(), RunFault> {
        if !are_same_when_refused(self.alloc, text) {
            say(rt, "is read otherwise where memory is refused")?;
        }
        let named = match Named::read(self.alloc, text) {
            Ok(named) => named,
            Err(fault) => return show_fault(rt, fault),
        };
        if let Some(name) = named.extends() {
            let line = format!(in self.alloc; "= extends {name}")?;
            say(rt, line.as_str())?;
        }
        for name in named.ignore_from() {
            let name = name.as_str();
            let line = format!(in self.alloc; "= from {name}")?;
            say(rt, line.as_str())?;
        }
        Ok(())
    }

    // Prints the rules that hold for a path.
    fn show_path(&self, rt: &HostRuntime, path: &str) -> Result<(), RunFault> {
        match self.project.config_for(path)? {
            None => say(rt, "= ignored"),
            Some(config) => show_rules(rt, &config),
        }
    }

    // Follows a case with a text.
    fn follow_text(&mut self, rt: &HostRuntime, word: &str, text: &[u8]) -> Result<(), RunFault> {
        match word {
            "read" => self.read(rt, text),
            "named" => self.show_named(rt, text),
            "lines" => {
                self.lines.clear();
                self.lines.extend_from_slice(text)?;
                Ok(())
            }
            _ => say(rt, "is no case"),
        }
    }
}

impl Cases for State {
    fn follow(&mut self, rt: &HostRuntime, case: &str) -> Result<(), RunFault> {
        let (word, rest) = first_word(case);
        match word {
            "base" => {
                match base_named(rest) {
                    Some(base) => self.base = base,
                    None => say(rt, "is no case")?,
                }
                Ok(())
            }
            "path" => self.show_path(rt, rest),
            "yaml" => {
                let is_yaml = self.project.is_yaml(rest)?;
                say(rt, if is_yaml { "= yaml" } else { "= other" })
            }
            _ => match self.next.end_by(word, rest)? {
                Some(text) => self.follow_text(rt, word, text.as_slice()),
                None => Ok(()),
            },
        }
    }
}
