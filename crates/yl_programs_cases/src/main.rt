//! `yl_programs_cases`: reads test cases of the words of a command line, and prints what each asks of a program.
//!
//! A case is a line: the name of a program, and its words, a bar before each. It is printed, and then the configuration, the files and the flags
//! that it asks for, the task of `zutkrad`, a help or a version, or `use` where the words are no command. Empty lines, and those that begin with `#`, are passed over.
#![tactic(auto)]

use std::alloc::{AllocError, Global};
use std::process::ExitCode;
use test_cases::{Cases, follow_cases, say};
use yl_devices::RunFault;
use yl_programs::{
    Asked, AskedCheck, AskedDump, Flags, Source, Stop, Task, View, asked, asked_dump, asked_edit,
    asked_zutkrad,
};

// The words of a case, and before them the name of its program.
fn words(alloc: Global, case: &str) -> Result<Vec<String>, AllocError> {
    let mut words = Vec::new(alloc);
    for word in case.split('|') {
        words.push(String::from_str(alloc, word)?)?;
    }
    Ok(words)
}

// Where the configuration is read from.
fn source(alloc: Global, source: &Source) -> Result<String, AllocError> {
    match source {
        Source::Standard => String::from_str(alloc, "files"),
        Source::File(name) => format!(in alloc; "config of {name}, files"),
        Source::Data(text) => format!(in alloc; "config {text:?}, files"),
    }
}

// The configuration, the files that are asked for, and the flags.
fn shown(
    alloc: Global,
    config: &Source,
    files: &[String],
    flags: Flags,
) -> Result<String, AllocError> {
    let mut line = source(alloc, config)?;
    for file in files {
        line.push_str(" ")?;
        line.push_str(file.as_str())?;
    }
    line.push_str(if flags.strict { ", strict" } else { "" })?;
    line.push_str(if flags.no_warnings {
        ", no warnings"
    } else {
        ""
    })?;
    line.push_str(if flags.work { ", work" } else { "" })?;
    Ok(line)
}

// What is asked of `zutkrad check`.
fn shown_check(alloc: Global, asked: &AskedCheck) -> Result<String, AllocError> {
    let mut line = shown(alloc, &asked.config, &asked.paths, asked.flags)?;
    line.push_str(if asked.lists { ", listed" } else { "" })?;
    format!(in alloc; "{line}, {:?}", asked.format)
}

// What is asked of `yldump`.
fn shown_dump(alloc: Global, asked: &AskedDump) -> Result<String, AllocError> {
    let view = match asked.view {
        View::Lexemes => "lexemes",
        View::Events => "events",
        View::Lines => "lines",
    };
    format!(in alloc; "{view} of {}", asked.file)
}

// Why nothing is run.
fn stopped(alloc: Global, stop: Stop) -> Result<String, AllocError> {
    match stop {
        Stop::Help(text) => Ok(text),
        Stop::Use => String::from_str(alloc, "use"),
        Stop::Memory => String::from_str(alloc, "memory"),
    }
}

// What these words ask of a program.
fn answer(alloc: Global, program: &str, words: &[String]) -> Result<String, AllocError> {
    if program == "yldump" {
        return match asked_dump(alloc, words) {
            Ok(asked) => shown_dump(alloc, &asked),
            Err(stop) => stopped(alloc, stop),
        };
    }
    if program == "zutkrad" {
        return match asked_zutkrad(alloc, words) {
            Ok(Task::Server) => String::from_str(alloc, "server"),
            Ok(Task::Check(asked)) => shown_check(alloc, &asked),
            Err(stop) => stopped(alloc, stop),
        };
    }
    let answer = if program == "yledit" {
        asked_edit(alloc, words)
    } else {
        asked(alloc, words)
    };
    match answer {
        Ok(asked) => shown(alloc, &asked.config, &asked.files, asked.flags),
        Err(stop) => stopped(alloc, stop),
    }
}

// What a case asks for.
fn answer_of(alloc: Global, case: &str) -> Result<String, AllocError> {
    let words = words(alloc, case)?;
    match words.split_first() {
        Some((name, words)) => answer(alloc, name.as_str(), words),
        None => Ok(String::new(alloc)),
    }
}

// Nothing is kept between cases.
#[derive(Drop)]
struct CommandLines;

impl Cases for CommandLines {
    fn follow(&mut self, rt: &HostRuntime, case: &str) -> Result<(), RunFault> {
        let answer = answer_of(rt.alloc(), case)?;
        say(rt, answer.as_str())
    }
}

fn main(rt: HostRuntime) -> ExitCode {
    follow_cases(&rt, &mut CommandLines)
}
