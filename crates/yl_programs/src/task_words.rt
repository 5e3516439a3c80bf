//! The words of `zutkrad`.
use crate::answer::{AskedCheck, AskedFormat, Flags, Stop, Task};
use crate::command_words::{
    config_data, config_file, configurations, flag, matches_of, names_of, source_of,
};
use clap::builder::PossibleValue;
use clap::{Arg, ArgAction, ArgMatches, Command};
use std::alloc::{AllocError, Global};

const VERSION: &str = "0.1.0";

// The tasks but `check`, whose words are read apart. The help names them, as it does formats.
fn tasks<'a>() -> [PossibleValue<'a>; 1] {
    [PossibleValue::new("server").hide(true)]
}

fn zutkrad_command<'a>(
    alloc: Global,
    tasks: &'a [PossibleValue<'a>],
) -> Result<Command<'a>, AllocError> {
    let task = Arg::new(alloc, "TASK")
        .required(true)
        .action(ArgAction::Set)
        .value_parser(tasks)
        .hide_possible_values(true)
        .help(
            "`check`: lint files and folders, see `zutkrad check -h`; `server`: a Language Server over standard input and output",
        );
    Command::new(alloc, "zutkrad")
        .no_binary_name(true)
        .version(VERSION)
        .arg(task)
}

fn formats<'a>() -> [PossibleValue<'a>; 5] {
    [
        PossibleValue::new("parsable").hide(true),
        PossibleValue::new("standard").hide(true),
        PossibleValue::new("colored").hide(true),
        PossibleValue::new("github").hide(true),
        PossibleValue::new("auto").hide(true),
    ]
}

fn format_option<'a>(alloc: Global, formats: &'a [PossibleValue<'a>]) -> Arg<'a> {
    Arg::new(alloc, "format")
        .short('f')
        .long("format")
        .action(ArgAction::Set)
        .value_name("FORMAT")
        .value_parser(formats)
        .hide_possible_values(true)
        .help(
            "how problems are printed [default: auto] [possible values: parsable, standard, colored, github, auto]",
        )
}

fn paths<'a>(alloc: Global) -> Arg<'a> {
    Arg::new(alloc, "PATH")
        .action(ArgAction::Append)
        .num_args(1..)
        .help("files and folders to lint, `-` for standard input [default: .]")
}

fn version<'a>(alloc: Global) -> Arg<'a> {
    Arg::new(alloc, "version")
        .short('v')
        .long("version")
        .action(ArgAction::Version)
        .help("Print version")
}

fn check_command<'a>(
    alloc: Global,
    formats: &'a [PossibleValue<'a>],
) -> Result<Command<'a>, AllocError> {
    Command::new(alloc, "zutkrad")
        .bin_name("zutkrad check")?
        .no_binary_name(true)
        .version(VERSION)
        .disable_version_flag(true)
        .after_help("Example: zutkrad check -f standard .")
        .arg(config_file(alloc).long("config-file"))?
        .arg(
            config_data(alloc)
                .long("config-data")
                .allow_hyphen_values(true),
        )?
        .group(configurations(alloc)?)?
        .arg(format_option(alloc, formats))?
        .arg(flag(
            alloc,
            "list-files",
            "print the names of the files that would be linted",
        ))?
        .arg(flag(alloc, "strict", "give status 2 for warnings").short('s'))?
        .arg(flag(alloc, "no-warnings", "print errors alone"))?
        .arg(version(alloc))?
        .arg(paths(alloc))
}

fn format_of(matches: &ArgMatches<'_>) -> AskedFormat {
    match matches.get_str("format") {
        Some("parsable") => AskedFormat::Parsable,
        Some("standard") => AskedFormat::Standard,
        Some("colored") => AskedFormat::Colored,
        Some("github") => AskedFormat::Github,
        _ => AskedFormat::Auto,
    }
}

fn paths_of(alloc: Global, matches: &ArgMatches<'_>) -> Result<Vec<String>, Stop> {
    let mut paths = names_of(alloc, matches, "PATH")?;
    if paths.is_empty() {
        paths.push(String::from_str(alloc, ".")?)?;
    }
    Ok(paths)
}

// What the words after `zutkrad check` ask for.
fn asked_check(alloc: Global, words: &[String]) -> Result<AskedCheck, Stop> {
    let formats = formats();
    let command = check_command(alloc, &formats)?;
    let matches = matches_of(alloc, command, words)?;
    Ok(AskedCheck {
        config: source_of(alloc, &matches)?,
        paths: paths_of(alloc, &matches)?,
        format: format_of(&matches),
        flags: Flags {
            strict: matches.get_flag("strict"),
            no_warnings: matches.get_flag("no-warnings"),
            work: false,
        },
        lists: matches.get_flag("list-files"),
    })
}

/// What the words after the name `zutkrad` ask for, which are looked at as those of `yamllint`.
/// `--version` is answered as the help is. The words after `check` are read as yamllint has them.
pub fn asked_zutkrad(alloc: Global, words: &[String]) -> Result<Task, Stop> {
    if let Some((task, words)) = words.split_first()
        && task.as_str() == "check"
    {
        return Ok(Task::Check(asked_check(alloc, words)?));
    }
    let tasks = tasks();
    let command = zutkrad_command(alloc, &tasks)?;
    let _ = matches_of(alloc, command, words)?;
    Ok(Task::Server)
}
