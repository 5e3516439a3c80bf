//! Tests of printed problems.
use crate::problems::{
    DIGITS, DIGITS_PRINTS, MIXED, MIXED_PRINTS, Print, ProblemParts, WARNED, WARNED_PRINTS,
};
use std::alloc::{AllocError, Global};
use std::test::Fail;
use test_cases::MemoryWriter;
use yl_devices::WriteFault;
use yl_formats::{Format, write_problems};
use yl_report::Problem;
use yl_text::{Finding, Watched};

const NAME: &str = "a b.yaml";

fn problems_of(
    alloc: Global,
    all_parts: &[ProblemParts],
) -> Result<Vec<Problem<Global>>, AllocError> {
    let mut problems = Vec::new(alloc);
    for (line, column, level, rule, message) in all_parts {
        let found = Finding::fixed(*line, *column, *rule, message);
        problems.push(Problem::new(found, *level))?;
    }
    Ok(problems)
}

// Prints problems to a writer that takes at most some bytes a call and fails at one call. Returns
// the bytes that the writer has, and the result of the printing.
fn printed(
    problems: &[Problem<Global>],
    format: Format,
    no_warnings: bool,
    most: usize,
    fails_at: u64,
    alloc: Global,
) -> (Vec<u8>, Result<(), WriteFault>) {
    let mut writer = MemoryWriter::new(alloc);
    writer.most = most;
    writer.fails_at = fails_at;
    let mut out = Watched::new(writer);
    let answer = write_problems(format, NAME, problems, no_warnings, &mut out);
    (out.into_inner().bytes, answer)
}

// Returns `true` if this text is printed for the problems.
fn is_printed(alloc: Global, problems: &[Problem<Global>], print: &Print) -> bool {
    let (format, no_warnings, text) = *print;
    let (bytes, answer) = printed(problems, format, no_warnings, usize::MAX, 0, alloc);
    answer == Ok(()) && bytes.as_slice() == text.as_bytes()
}

// Returns `true` if a writer that fails at one call, each call in turn, has a prefix of the text.
fn stops_at_each_write(alloc: Global, problems: &[Problem<Global>], print: &Print) -> bool {
    let (format, no_warnings, text) = *print;
    for nth in 1..u64::MAX {
        let (bytes, answer) = printed(problems, format, no_warnings, 7, nth, alloc);
        if answer == Ok(()) {
            return bytes.as_slice() == text.as_bytes();
        }
        if !text.as_bytes().starts_with(bytes.as_slice()) {
            return false;
        }
    }
    false
}

#[test]
fn as_yamllint_prints(rt: HostRuntime) -> Result<(), Fail> {
    let cases: [(&[ProblemParts], &[Print]); 3] = [
        (&MIXED, &MIXED_PRINTS),
        (&WARNED, &WARNED_PRINTS),
        (&DIGITS, &DIGITS_PRINTS),
    ];
    for (all_parts, prints) in cases {
        let problems = problems_of(rt.alloc(), all_parts)?;
        for print in prints {
            assert!(rt;
                is_printed(rt.alloc(), problems.as_slice(), print),
                "{}",
                print.2
            );
            assert!(rt;
                stops_at_each_write(rt.alloc(), problems.as_slice(), print),
                "{}",
                print.2
            );
        }
    }
    Ok(())
}
