//! Words read by `clap`.
use crate::answer::{Asked, AskedDump, Flags, Source, Stop, View};
use clap::builder::PossibleValue;
use clap::error::ErrorKind;
use clap::{Arg, ArgAction, ArgGroup, ArgMatches, Command, Error};
use std::alloc::{AllocError, Global};

pub(crate) fn flag<'a>(alloc: Global, id: &'a str, help: &'a str) -> Arg<'a> {
    Arg::new(alloc, id)
        .long(id)
        .action(ArgAction::SetTrue)
        .help(help)
}

// The formats of printed problems. clap looks for none of nearly the same name among those that are hidden, so the help names them.
fn formats<'a>() -> [PossibleValue<'a>; 1] {
    [PossibleValue::new("parsable").hide(true)]
}

fn format_option<'a>(alloc: Global, formats: &'a [PossibleValue<'a>]) -> Arg<'a> {
    Arg::new(alloc, "format")
        .short('f')
        .action(ArgAction::Set)
        .value_name("FORMAT")
        .value_parser(formats)
        .hide_possible_values(true)
        .help("how problems are printed [possible values: parsable]")
}

fn files<'a>(alloc: Global) -> Arg<'a> {
    Arg::new(alloc, "FILE")
        .required(true)
        .action(ArgAction::Append)
        .num_args(1..)
        .help("files to lint, `-` for standard input")
}

pub(crate) fn config_file<'a>(alloc: Global) -> Arg<'a> {
    Arg::new(alloc, "config-file")
        .short('c')
        .action(ArgAction::Set)
        .value_name("FILE")
        .help("read the configuration from a file")
}

pub(crate) fn config_data<'a>(alloc: Global) -> Arg<'a> {
    Arg::new(alloc, "config-data")
        .short('d')
        .action(ArgAction::Set)
        .value_name("DATA")
        .help("read the configuration from this text, such as default")
}

// At most one of the options that give a configuration.
pub(crate) fn configurations<'a>(alloc: Global) -> Result<ArgGroup<'a>, AllocError> {
    ArgGroup::new(alloc, "configuration")
        .arg("config-file")?
        .arg("config-data")
}

fn lint_command<'a>(
    alloc: Global,
    formats: &'a [PossibleValue<'a>],
) -> Result<Command<'a>, AllocError> {
    Command::new(alloc, "yamllint")
        .no_binary_name(true)
        .after_help("Example: yamllint -d \"rules: {line-length: {max: 100}}\" a.yaml b.yaml")
        .arg(config_file(alloc))?
        .arg(config_data(alloc))?
        .group(configurations(alloc)?)?
        .arg(format_option(alloc, formats))?
        .arg(flag(alloc, "strict", "give status 2 for warnings").short('s'))?
        .arg(flag(alloc, "no-warnings", "print errors alone"))?
        .arg(files(alloc))
}

fn shown_file<'a>(alloc: Global) -> Arg<'a> {
    Arg::new(alloc, "FILE")
        .required(true)
        .action(ArgAction::Set)
        .help("file to show, `-` for standard input")
}

fn edited_file<'a>(alloc: Global) -> Arg<'a> {
    Arg::new(alloc, "FILE")
        .required(true)
        .action(ArgAction::Set)
        .help("file to edit by the commands on standard input")
}

fn edit_command<'a>(alloc: Global) -> Result<Command<'a>, AllocError> {
    let strict = Arg::new(alloc, "strict")
        .short('s')
        .action(ArgAction::SetTrue)
        .help("give status 2 for warnings");
    Command::new(alloc, "yledit")
        .no_binary_name(true)
        .after_help("Example: printf 'replace 0 0 0 0 4\\n---\\n' | yledit a.yaml")
        .arg(config_file(alloc))?
        .arg(config_data(alloc))?
        .group(configurations(alloc)?)?
        .arg(strict)?
        .arg(flag(alloc, "no-warnings", "print errors alone"))?
        .arg(flag(alloc, "work", "print how many lines an edit scanned"))?
        .arg(edited_file(alloc))
}

// At most one of the flags that say what is shown.
fn views<'a>(alloc: Global) -> Result<ArgGroup<'a>, AllocError> {
    ArgGroup::new(alloc, "view")
        .arg("lexemes")?
        .arg("events")?
        .arg("lines")
}

fn dump_command<'a>(alloc: Global) -> Result<Command<'a>, AllocError> {
    Command::new(alloc, "yldump")
        .no_binary_name(true)
        .arg(flag(alloc, "lexemes", "show lexemes and comments"))?
        .arg(flag(alloc, "events", "show events, as without a flag"))?
        .arg(flag(alloc, "lines", "show what is known where a line begins"))?
        .group(views(alloc)?)?
        .arg(shown_file(alloc))
}

fn stop_of(alloc: Global, error: Error) -> Stop {
    match error.kind() {
        ErrorKind::DisplayHelp | ErrorKind::DisplayVersion => match error.to_string(alloc) {
            Ok(text) => Stop::Help(text),
            Err(_) => Stop::Memory,
        },
        ErrorKind::OutOfMemory => Stop::Memory,
        _ => Stop::Use,
    }
}

// Whether the word has the form of a long option, and the command has none of its name.
fn is_unknown_option(command: &Command<'_>, word: &str) -> bool {
    let Some(text) = word.strip_prefix("--") else {
        return false;
    };
    let name = match text.split_once('=') {
        Some((name, _)) => name,
        None => text,
    };
    !text.is_empty()
        && name != "help"
        && (name != "version" || command.get_version().is_none())
        && !command
            .get_arguments()
            .iter()
            .any(|arg| arg.get_long() == Some(name))
}

// The words before the first that is an unknown option. Behind `--` no word is an option.
fn known_words<'w>(command: &Command<'_>, words: &'w [String]) -> &'w [String] {
    for (i, word) in words.iter().enumerate() {
        if word.as_str() == "--" {
            return words;
        }
        if is_unknown_option(command, word.as_str()) {
            let (known, _) = words.split_at(i);
            return known;
        }
    }
    words
}

// What the command takes the words for. At an unknown option clap looks for one of nearly the same name, and asks a refused growth again
// there. So it is given the words before it alone: help or a fault among them answers, and else the option is the fault.
pub(crate) fn matches_of<'a>(
    alloc: Global,
    command: Command<'a>,
    words: &'a [String],
) -> Result<ArgMatches<'a>, Stop> {
    let known = known_words(&command, words);
    match command.try_get_matches_from(known) {
        Ok(matches) if known.len() == words.len() => Ok(matches),
        Ok(_) => Err(Stop::Use),
        Err(error) => Err(stop_of(alloc, error)),
    }
}

// The values of an argument, in order.
pub(crate) fn names_of(
    alloc: Global,
    matches: &ArgMatches<'_>,
    id: &str,
) -> Result<Vec<String>, Stop> {
    let mut files = Vec::new(alloc);
    if let Some(names) = matches.get_strs(id) {
        for name in names {
            files.push(String::from_str(alloc, name)?)?;
        }
    }
    Ok(files)
}

// The configuration's text: a word that is not empty and has no colon names what is extended.
fn config_text(alloc: Global, data: &str) -> Result<String, AllocError> {
    if data.is_empty() || data.contains(':') {
        return String::from_str(alloc, data);
    }
    let mut text = String::from_str(alloc, "extends: ")?;
    text.push_str(data)?;
    Ok(text)
}

pub(crate) fn source_of(alloc: Global, matches: &ArgMatches<'_>) -> Result<Source, AllocError> {
    if let Some(name) = matches.get_str("config-file") {
        return Ok(Source::File(String::from_str(alloc, name)?));
    }
    match matches.get_str("config-data") {
        Some(data) => Ok(Source::Data(config_text(alloc, data)?)),
        None => Ok(Source::Standard),
    }
}

/// What the words after the name `yledit` ask for, which are read as those of `yamllint`. Standard
/// input has the commands, so it is no file: the name `-` is `Use`.
pub fn asked_edit(alloc: Global, words: &[String]) -> Result<Asked, Stop> {
    let command = edit_command(alloc)?;
    let matches = matches_of(alloc, command, words)?;
    let files = names_of(alloc, &matches, "FILE")?;
    if files.iter().any(|file| file.as_str() == "-") {
        return Err(Stop::Use);
    }
    Ok(Asked {
        config: source_of(alloc, &matches)?,
        files,
        flags: Flags {
            strict: matches.get_flag("strict"),
            no_warnings: matches.get_flag("no-warnings"),
            work: matches.get_flag("work"),
        },
    })
}

/// What the words after the name `yamllint` ask for. They are read from left to right: whichever of
/// `-h` and a word that does not fit comes first answers. An option that is given twice, a value
/// that is none of those that the option takes, and a want of files are `Use`.
pub fn asked(alloc: Global, words: &[String]) -> Result<Asked, Stop> {
    let formats = formats();
    let command = lint_command(alloc, &formats)?;
    let matches = matches_of(alloc, command, words)?;
    Ok(Asked {
        config: source_of(alloc, &matches)?,
        files: names_of(alloc, &matches, "FILE")?,
        flags: Flags {
            strict: matches.get_flag("strict"),
            no_warnings: matches.get_flag("no-warnings"),
            work: false,
        },
    })
}

fn view_of(matches: &ArgMatches<'_>) -> View {
    if matches.get_flag("lexemes") {
        View::Lexemes
    } else if matches.get_flag("lines") {
        View::Lines
    } else {
        View::Events
    }
}

/// What the words behind the name `yldump` ask for, which are looked at as those of `yamllint`. Two
/// of the flags that say what is shown, and more than one file, are `Use`.
pub fn asked_dump(alloc: Global, words: &[String]) -> Result<AskedDump, Stop> {
    let command = dump_command(alloc)?;
    let matches = matches_of(alloc, command, words)?;
    let Some(file) = matches.get_str("FILE") else {
        return Err(Stop::Use);
    };
    Ok(AskedDump {
        file: String::from_str(alloc, file)?,
        view: view_of(&matches),
    })
}
