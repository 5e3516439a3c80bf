//! Prints the problems of a file after its name.
ghost use Rattle.std.specs.Prelude.{◌≡◌, ◌-◌, ◌^◌, ◌<◌, ◌++◌, [], if◌then◌else◌, OnOk, OnErr};
ghost use Rattle.std.specs.List.{flat_map, list_all};
ghost use Rattle.std.specs.Io.KnownBytes.{Appends};
ghost use Rattle.yl_text.specs.Watched.{device_of, failures_of};
ghost use Rattle.yl_devices.specs.Written.{AppendsFront, Passes};
ghost use Rattle.yl_formats.specs.Formats.{is_hidden, lines_text, listed_text};
ghost use Rattle.yl_formats.specs.Listings.{end_of, head_of, line_of};

use crate::format::Listing;
use crate::{colored, github, standard};
use std::alloc::Allocator;
use std::io::Write;
use yl_devices::{Waiting, WriteFault, flush, put_parts};
use yl_report::Problem;
use yl_text::Watched;

// Returns the pieces of the text before the problems of a file.
fn head_parts<'a>(listing: Listing, name: &'a str) -> [&'a [u8]; 3]
    ensures { flat_map (λ part. part.now) result ≡ head_of listing name.now }
{
    match listing {
        Listing::Standard => [b"", name.as_bytes(), b"\n"],
        Listing::Colored => [b"\x1b[4m", name.as_bytes(), b"\x1b[0m\n"],
        Listing::Github => [b"::group::", name.as_bytes(), b"\n"],
    }
}

// Returns the pieces of the text after the problems of a file.
fn end_parts(listing: Listing) -> [&'static [u8]; 1]
    ensures { flat_map (λ part. part.now) result ≡ end_of listing }
{
    match listing {
        Listing::Standard | Listing::Colored => [b"\n"],
        Listing::Github => [b"::endgroup::\n\n"],
    }
}

// Appends the text before the problems of a file to the buffer `waiting`, and writes to `out` what
// does not fit.
fn put_head<W: Write>(
    listing: Listing,
    name: &str,
    out: &mut Watched<W>,
    waiting: &mut Waiting,
) -> Result<(), WriteFault>
    requires { failures_of out.old < 2 ^ 64 - 1 }
    ensures ok { OnOk result (Passes (W.contents (device_of out.old)) (W.contents (device_of out.new))
        waiting.old.items (head_of listing name.now) waiting.new.items) }
    ensures quiet { OnOk result (failures_of out.new ≡ failures_of out.old) }
    ensures err { OnErr result (AppendsFront (W.contents (device_of out.old)) (W.contents (device_of out.new))
        (waiting.old.items ++ head_of listing name.now)) }
    ensures failed { OnErr result (failures_of out.old < failures_of out.new) }
{
    put_parts(out, waiting, &head_parts(listing, name))
}

// Appends the text after the problems of a file to the buffer `waiting`, and writes to `out` what
// does not fit.
fn put_end<W: Write>(
    listing: Listing,
    out: &mut Watched<W>,
    waiting: &mut Waiting,
) -> Result<(), WriteFault>
    requires { failures_of out.old < 2 ^ 64 - 1 }
    ensures ok { OnOk result (Passes (W.contents (device_of out.old)) (W.contents (device_of out.new))
        waiting.old.items (end_of listing) waiting.new.items) }
    ensures quiet { OnOk result (failures_of out.new ≡ failures_of out.old) }
    ensures err { OnErr result (AppendsFront (W.contents (device_of out.old)) (W.contents (device_of out.new))
        (waiting.old.items ++ end_of listing)) }
    ensures failed { OnErr result (failures_of out.old < failures_of out.new) }
{
    put_parts(out, waiting, &end_parts(listing))
}

// Returns `true` if the problem is a warning and `no_warnings` is set.
fn is_hidden<A: Allocator>(problem: &Problem<A>, no_warnings: bool) -> bool
    ensures { result ≡ is_hidden no_warnings problem.now }
{
    no_warnings && !problem.is_error()
}

// Returns `true` if all problems are warnings and `no_warnings` is set, or if there are no
// problems.
fn are_hidden<A: Allocator>(problems: &[Problem<A>], no_warnings: bool) -> bool
    ensures { result ≡ list_all (is_hidden no_warnings) problems.now }
{
    problems
        .iter()
        .all(|problem| is_hidden(problem, no_warnings))
}

// Appends the line of a problem to the buffer `waiting`, and writes to `out` what does not fit.
fn put_line<W: Write, A: Allocator>(
    listing: Listing,
    name: &str,
    problem: &Problem<A>,
    out: &mut Watched<W>,
    waiting: &mut Waiting,
) -> Result<(), WriteFault>
    requires { failures_of out.old < 2 ^ 64 - 1 }
    ensures ok { OnOk result (Passes (W.contents (device_of out.old)) (W.contents (device_of out.new))
        waiting.old.items (line_of listing name.now problem.now) waiting.new.items) }
    ensures quiet { OnOk result (failures_of out.new ≡ failures_of out.old) }
    ensures err { OnErr result (AppendsFront (W.contents (device_of out.old)) (W.contents (device_of out.new))
        (waiting.old.items ++ line_of listing name.now problem.now)) }
    ensures failed { OnErr result (failures_of out.old < failures_of out.new) }
{
    match listing {
        Listing::Standard => standard::put_line(problem, out, waiting),
        Listing::Colored => colored::put_line(problem, out, waiting),
        Listing::Github => github::put_line(name, problem, out, waiting),
    }
}

// Appends the line of a problem to the buffer `waiting`, unless the problem is a warning and
// `no_warnings` is set.
fn put_problem<W: Write, A: Allocator>(
    listing: Listing,
    name: &str,
    problem: &Problem<A>,
    no_warnings: bool,
    out: &mut Watched<W>,
    waiting: &mut Waiting,
) -> Result<(), WriteFault>
    requires { failures_of out.old < 2 ^ 64 - 1 }
    ensures ok { OnOk result (Passes (W.contents (device_of out.old)) (W.contents (device_of out.new))
        waiting.old.items (if is_hidden no_warnings problem.now then [] else line_of listing name.now problem.now) waiting.new.items) }
    ensures quiet { OnOk result (failures_of out.new ≡ failures_of out.old) }
    ensures err { OnErr result (AppendsFront (W.contents (device_of out.old)) (W.contents (device_of out.new))
        (waiting.old.items ++ (if is_hidden no_warnings problem.now then [] else line_of listing name.now problem.now))) }
    ensures failed { OnErr result (failures_of out.old < failures_of out.new) }
{
    if is_hidden(problem, no_warnings) {
        Ok(())
    } else {
        put_line(listing, name, problem, out, waiting)
    }
}

// Appends the lines of the problems to the buffer `waiting`, without those of warnings if
// `no_warnings` is set.
fn put_problems<W: Write, A: Allocator>(
    listing: Listing,
    name: &str,
    problems: &[Problem<A>],
    no_warnings: bool,
    out: &mut Watched<W>,
    waiting: &mut Waiting,
) -> Result<(), WriteFault>
    requires { failures_of out.old < 2 ^ 64 - 1 }
    ensures ok { OnOk result (Passes (W.contents (device_of out.old)) (W.contents (device_of out.new))
        waiting.old.items (lines_text (line_of listing name.now) problems.now no_warnings) waiting.new.items) }
    ensures quiet { OnOk result (failures_of out.new ≡ failures_of out.old) }
    ensures err { OnErr result (AppendsFront (W.contents (device_of out.old)) (W.contents (device_of out.new))
        (waiting.old.items ++ lines_text (line_of listing name.now) problems.now no_warnings)) }
    ensures failed { OnErr result (failures_of out.old < failures_of out.new) }
{
    for problem in problems {
        put_problem(listing, name, problem, no_warnings, out, waiting)?;
    }
    Ok(())
}

// Appends the lines of the problems to the buffer `waiting`, between the texts before and after
// them. Leaves out the lines of warnings if `no_warnings` is set.
fn put_listing<W: Write, A: Allocator>(
    listing: Listing,
    name: &str,
    problems: &[Problem<A>],
    no_warnings: bool,
    out: &mut Watched<W>,
    waiting: &mut Waiting,
) -> Result<(), WriteFault>
    requires { failures_of out.old < 2 ^ 64 - 1 }
    ensures ok { OnOk result (Passes (W.contents (device_of out.old)) (W.contents (device_of out.new)) waiting.old.items
        (head_of listing name.now ++ lines_text (line_of listing name.now) problems.now no_warnings ++ end_of listing) waiting.new.items) }
    ensures quiet { OnOk result (failures_of out.new ≡ failures_of out.old) }
    ensures err { OnErr result (AppendsFront (W.contents (device_of out.old)) (W.contents (device_of out.new))
        (waiting.old.items ++ (head_of listing name.now ++ lines_text (line_of listing name.now) problems.now no_warnings ++ end_of listing))) }
    ensures failed { OnErr result (failures_of out.old < failures_of out.new) }
{
    put_head(listing, name, out, waiting)?;
    put_problems(listing, name, problems, no_warnings, out, waiting)?;
    put_end(listing, out, waiting)
}

// Writes the lines of the problems, between the texts before and after them. Leaves out the lines
// of warnings if `no_warnings` is set.
fn write_lines<W: Write, A: Allocator>(
    listing: Listing,
    name: &str,
    problems: &[Problem<A>],
    no_warnings: bool,
    out: &mut Watched<W>,
) -> Result<(), WriteFault>
    requires { failures_of out.old < 2 ^ 64 - 1 }
    ensures ok { OnOk result (Appends (W.contents (device_of out.old)) (W.contents (device_of out.new))
        (head_of listing name.now ++ lines_text (line_of listing name.now) problems.now no_warnings ++ end_of listing)) }
    ensures quiet { OnOk result (failures_of out.new ≡ failures_of out.old) }
    ensures err { OnErr result (AppendsFront (W.contents (device_of out.old)) (W.contents (device_of out.new))
        (head_of listing name.now ++ lines_text (line_of listing name.now) problems.now no_warnings ++ end_of listing)) }
    ensures failed { OnErr result (failures_of out.old < failures_of out.new) }
{
    let mut waiting = Waiting::new();
    put_listing(listing, name, problems, no_warnings, out, &mut waiting)?;
    flush(out, &mut waiting)
}

/// Writes the name of a file and the lines of its problems, without those of warnings if
/// `no_warnings` is set. Writes nothing if no problem is printed. Returns an error only if the
/// writer failed. Then a prefix of the text is written.
pub(crate) fn write_listing<W: Write, A: Allocator>(
    listing: Listing,
    name: &str,
    problems: &[Problem<A>],
    no_warnings: bool,
    out: &mut Watched<W>,
) -> Result<(), WriteFault>
    requires { failures_of out.old < 2 ^ 64 - 1 }
    ensures ok { OnOk result (Appends (W.contents (device_of out.old)) (W.contents (device_of out.new))
        (listed_text (head_of listing name.now) (line_of listing name.now) (end_of listing) problems.now no_warnings)) }
    ensures quiet { OnOk result (failures_of out.new ≡ failures_of out.old) }
    ensures err { OnErr result (AppendsFront (W.contents (device_of out.old)) (W.contents (device_of out.new))
        (listed_text (head_of listing name.now) (line_of listing name.now) (end_of listing) problems.now no_warnings)) }
    ensures failed { OnErr result (failures_of out.old < failures_of out.new) }
{
    if are_hidden(problems, no_warnings) {
        Ok(())
    } else {
        write_lines(listing, name, problems, no_warnings, out)
    }
}
