//! What is asked of a program, or why it does not run.
ghost use Rattle.std.specs.Prelude.{◌≡◌};
ghost use Rattle.yl_programs.specs.declared.answer.Stop.TheVariants.{Memory};

use std::alloc::{AllocError, AllocFailed};

/// How a run prints and counts.
#[derive(Clone, Copy)]
pub struct Flags {
    /// Warnings give status 2 where no error gives 1.
    pub strict: bool,
    /// Warnings are not printed; they count all the same.
    pub no_warnings: bool,
    /// How many lines an edit scanned is printed after its report's status.
    pub work: bool,
}

/// Where the configuration of a run is read from.
#[derive(Drop)]
pub enum Source {
    /// Nowhere: it is the default configuration.
    Standard,
    /// The file of this name; `-` names a file as any other word does.
    File(String),
    /// This text.
    Data(String),
}

/// A run: its configuration, the names of its files in order, of which there is at least one, and
/// its flags. The name `-` is standard input.
#[derive(Drop)]
pub struct Asked {
    pub config: Source,
    pub files: Vec<String>,
    pub flags: Flags,
}

/// What `yldump` shows of a text.
#[derive(Clone, Copy)]
pub enum View {
    /// Its lexemes and its comments.
    Lexemes,
    /// The events of its documents.
    Events,
    /// Its lines, with what a scanner knows where one begins.
    Lines,
}

/// A run of `yldump`: the name of its file, where `-` is standard input, and what is shown of it.
#[derive(Drop)]
pub struct AskedDump {
    pub file: String,
    pub view: View,
}

/// How `zutkrad check` is asked to print problems.
#[derive(Clone, Copy, Debug, PartialEq, Eq)]
pub enum AskedFormat {
    /// One of the others, by what standard output and the environment are.
    Auto,
    Parsable,
    Standard,
    Colored,
    Github,
}

/// A run of `zutkrad check`.
#[derive(Drop)]
pub struct AskedCheck {
    /// Where the configuration is read from; with `Standard` it is looked for.
    pub config: Source,
    /// The names of files and folders, in order, of which there is at least one. The name `-` is standard input.
    pub paths: Vec<String>,
    pub format: AskedFormat,
    pub flags: Flags,
    /// The names of the files are printed, and no file is linted.
    pub lists: bool,
}

/// What `zutkrad` does.
#[derive(Drop)]
pub enum Task {
    /// It is a Language Server over standard input and output.
    Server,
    /// It lints files and folders.
    Check(AskedCheck),
}

/// Why nothing is run.
#[derive(Drop)]
pub enum Stop {
    /// The help or the version is asked for, which is this text.
    Help(String),
    /// The words are no command.
    Use,
    /// Want of memory.
    Memory,
}

impl From<AllocError> for Stop {
    ghost from_gives = { λ _ stop. stop ≡ Memory };

    fn from(_error: AllocError) -> Stop {
        Stop::Memory
    }
}

impl<T: Drop> From<AllocFailed<T>> for Stop {
    ghost from_gives = { λ _ stop. stop ≡ Memory };

    fn from(_error: AllocFailed<T>) -> Stop {
        Stop::Memory
    }
}
