//! Prints configurations.
use std::alloc::AllocError;
use test_cases::say;
use yl_config::{Config, ConfigFault, RuleOptions};
use yl_devices::RunFault;
use yl_indentation::IndentSequences;
use yl_rules::NewLine;
use yl_text::RuleId;

const RULES: [RuleId; 18] = [
    RuleId::Anchors,
    RuleId::Braces,
    RuleId::Brackets,
    RuleId::Colons,
    RuleId::Commas,
    RuleId::Comments,
    RuleId::DocumentStart,
    RuleId::EmptyLines,
    RuleId::Hyphens,
    RuleId::Indentation,
    RuleId::KeyDuplicates,
    RuleId::KeyOrdering,
    RuleId::LineLength,
    RuleId::NewLineAtEndOfFile,
    RuleId::NewLines,
    RuleId::QuotedStrings,
    RuleId::TrailingSpaces,
    RuleId::Truthy,
];

// Returns a number as text, or `-1` if there is no limit.
fn limit(rt: &HostRuntime, limit: Option<u32>) -> Result<String, AllocError> {
    match limit {
        Some(n) => Ok(format!(in rt.alloc(); " {n}")?),
        None => Ok(format!(in rt.alloc(); " -1")?),
    }
}

fn sequences(sequences: IndentSequences) -> &'static str {
    match sequences {
        IndentSequences::Indented => " true",
        IndentSequences::NotIndented => " false",
        IndentSequences::Whatever => " whatever",
        IndentSequences::Consistent => " consistent",
    }
}

fn new_line(new_line: NewLine) -> &'static str {
    match new_line {
        NewLine::Unix => " unix",
        NewLine::Dos => " dos",
    }
}

// Returns some options of a rule as text.
fn some_options(rt: &HostRuntime, rule: RuleId, o: &RuleOptions) -> Result<String, AllocError> {
    match rule {
        RuleId::Braces => limit(rt, o.braces.max_spaces_inside),
        RuleId::Brackets => limit(rt, o.brackets.max_spaces_inside),
        RuleId::Comments => limit(rt, o.comments.min_spaces_from_content),
        RuleId::EmptyLines => limit(rt, Some(o.run.empty_lines.max)),
        RuleId::Indentation => {
            String::from_str(rt.alloc(), sequences(o.indentation.indent_sequences))
        }
        RuleId::LineLength => limit(rt, Some(o.row.max)),
        RuleId::NewLines => String::from_str(rt.alloc(), new_line(o.run.new_line)),
        _ => Ok(String::new(rt.alloc())),
    }
}

/// Prints the rules that are on, with some of their options.
pub fn show_rules(rt: &HostRuntime, config: &Config) -> Result<(), RunFault> {
    for rule in RULES {
        if let Some(level) = config.levels().level_of(rule) {
            let name = rule.name();
            let level = level.name();
            let options = some_options(rt, rule, config.options())?;
            let options = options.as_str();
            let line = format!(in rt.alloc(); "= {name} {level}{options}")?;
            say(rt, line.as_str())?;
        }
    }
    Ok(())
}

/// Prints a fault.
pub fn show_fault(rt: &HostRuntime, fault: ConfigFault) -> Result<(), RunFault> {
    let line = format!(in rt.alloc(); "= {fault}")?;
    say(rt, line.as_str())
}
