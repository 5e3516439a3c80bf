//! Problems, and what yamllint 1.29 prints for them in a file named `a b.yaml`.
use yl_formats::Format;
use yl_rules::Level;
use yl_text::RuleId;

/// A problem: its line, column, level, rule and message.
pub(crate) type ProblemParts = (u64, u64, Level, RuleId, &'static str);

/// Problems of both levels, among them the fault of a text.
pub(crate) static MIXED: [ProblemParts; 4] = [
    (
        1,
        1,
        Level::Warning,
        RuleId::DocumentStart,
        "missing document start \"---\"",
    ),
    (
        3,
        8,
        Level::Error,
        RuleId::Commas,
        "too many spaces after comma",
    ),
    (
        12,
        123,
        Level::Warning,
        RuleId::Truthy,
        "truthy value should be one of [false, true]",
    ),
    (
        1234,
        1,
        Level::Error,
        RuleId::Syntax,
        "syntax error: expected the node content, but found '<stream end>'",
    ),
];

/// Problems that are all warnings.
pub(crate) static WARNED: [ProblemParts; 2] = [
    (
        1,
        1,
        Level::Warning,
        RuleId::DocumentStart,
        "missing document start \"---\"",
    ),
    (
        12,
        123,
        Level::Warning,
        RuleId::Truthy,
        "truthy value should be one of [false, true]",
    ),
];

/// Problems whose lines and columns have one to ten digits.
pub(crate) static DIGITS: [ProblemParts; 10] = [
    (1, 1, Level::Error, RuleId::Colons, "m"),
    (12, 12, Level::Error, RuleId::Colons, "m"),
    (123, 123, Level::Error, RuleId::Colons, "m"),
    (1234, 1234, Level::Warning, RuleId::Colons, "m"),
    (12_345, 12_345, Level::Error, RuleId::Colons, "m"),
    (123_456, 123_456, Level::Error, RuleId::Colons, "m"),
    (1_234_567, 1_234_567, Level::Error, RuleId::Colons, "m"),
    (12_345_678, 12_345_678, Level::Error, RuleId::Colons, "m"),
    (123_456_789, 123_456_789, Level::Error, RuleId::Colons, "m"),
    (
        1_234_567_890,
        1_234_567_890,
        Level::Error,
        RuleId::Colons,
        "m",
    ),
];

/// A format, whether warnings are left out, and the printed text.
pub(crate) type Print = (Format, bool, &'static str);

/// The printed texts of `MIXED`.
pub(crate) static MIXED_PRINTS: [Print; 8] = [
    (
        Format::Parsable,
        false,
        "a b.yaml:1:1: [warning] missing document start \"---\" (document-start)\na b.yaml:3:8: [error] too many spaces after comma (commas)\na b.yaml:12:123: [warning] truthy value should be one of [false, true] (truthy)\na b.yaml:1234:1: [error] syntax error: expected the node content, but found '<stream end>' (syntax)\n",
    ),
    (
        Format::Parsable,
        true,
        "a b.yaml:3:8: [error] too many spaces after comma (commas)\na b.yaml:1234:1: [error] syntax error: expected the node content, but found '<stream end>' (syntax)\n",
    ),
    (
        Format::Standard,
        false,
        "a b.yaml\n  1:1       warning  missing document start \"---\"  (document-start)\n  3:8       error    too many spaces after comma  (commas)\n  12:123    warning  truthy value should be one of [false, true]  (truthy)\n  1234:1    error    syntax error: expected the node content, but found '<stream end>' (syntax)\n\n",
    ),
    (
        Format::Standard,
        true,
        "a b.yaml\n  3:8       error    too many spaces after comma  (commas)\n  1234:1    error    syntax error: expected the node content, but found '<stream end>' (syntax)\n\n",
    ),
    (
        Format::Colored,
        false,
        "\x1b[4ma b.yaml\x1b[0m\n  \x1b[2m1:1\x1b[0m       \x1b[33mwarning\x1b[0m  missing document start \"---\"  \x1b[2m(document-start)\x1b[0m\n  \x1b[2m3:8\x1b[0m       \x1b[31merror\x1b[0m    too many spaces after comma  \x1b[2m(commas)\x1b[0m\n  \x1b[2m12:123\x1b[0m    \x1b[33mwarning\x1b[0m  truthy value should be one of [false, true]  \x1b[2m(truthy)\x1b[0m\n  \x1b[2m1234:1\x1b[0m    \x1b[31merror\x1b[0m    syntax error: expected the node content, but found '<stream end>' (syntax)\n\n",
    ),
    (
        Format::Colored,
        true,
        "\x1b[4ma b.yaml\x1b[0m\n  \x1b[2m3:8\x1b[0m       \x1b[31merror\x1b[0m    too many spaces after comma  \x1b[2m(commas)\x1b[0m\n  \x1b[2m1234:1\x1b[0m    \x1b[31merror\x1b[0m    syntax error: expected the node content, but found '<stream end>' (syntax)\n\n",
    ),
    (
        Format::Github,
        false,
        "::group::a b.yaml\n::warning file=a b.yaml,line=1,col=1::1:1 [document-start] missing document start \"---\"\n::error file=a b.yaml,line=3,col=8::3:8 [commas] too many spaces after comma\n::warning file=a b.yaml,line=12,col=123::12:123 [truthy] truthy value should be one of [false, true]\n::error file=a b.yaml,line=1234,col=1::1234:1 syntax error: expected the node content, but found '<stream end>' (syntax)\n::endgroup::\n\n",
    ),
    (
        Format::Github,
        true,
        "::group::a b.yaml\n::error file=a b.yaml,line=3,col=8::3:8 [commas] too many spaces after comma\n::error file=a b.yaml,line=1234,col=1::1234:1 syntax error: expected the node content, but found '<stream end>' (syntax)\n::endgroup::\n\n",
    ),
];

/// The printed texts of `WARNED`.
pub(crate) static WARNED_PRINTS: [Print; 8] = [
    (
        Format::Parsable,
        false,
        "a b.yaml:1:1: [warning] missing document start \"---\" (document-start)\na b.yaml:12:123: [warning] truthy value should be one of [false, true] (truthy)\n",
    ),
    (Format::Parsable, true, ""),
    (
        Format::Standard,
        false,
        "a b.yaml\n  1:1       warning  missing document start \"---\"  (document-start)\n  12:123    warning  truthy value should be one of [false, true]  (truthy)\n\n",
    ),
    (Format::Standard, true, ""),
    (
        Format::Colored,
        false,
        "\x1b[4ma b.yaml\x1b[0m\n  \x1b[2m1:1\x1b[0m       \x1b[33mwarning\x1b[0m  missing document start \"---\"  \x1b[2m(document-start)\x1b[0m\n  \x1b[2m12:123\x1b[0m    \x1b[33mwarning\x1b[0m  truthy value should be one of [false, true]  \x1b[2m(truthy)\x1b[0m\n\n",
    ),
    (Format::Colored, true, ""),
    (
        Format::Github,
        false,
        "::group::a b.yaml\n::warning file=a b.yaml,line=1,col=1::1:1 [document-start] missing document start \"---\"\n::warning file=a b.yaml,line=12,col=123::12:123 [truthy] truthy value should be one of [false, true]\n::endgroup::\n\n",
    ),
    (Format::Github, true, ""),
];

/// The printed texts of `DIGITS`.
pub(crate) static DIGITS_PRINTS: [Print; 3] = [
    (
        Format::Standard,
        false,
        "a b.yaml\n  1:1       error    m  (colons)\n  12:12     error    m  (colons)\n  123:123   error    m  (colons)\n  1234:1234 warning  m  (colons)\n  12345:12345error   m  (colons)\n  123456:123456error m  (colons)\n  1234567:1234567errorm  (colons)\n  12345678:12345678errorm  (colons)\n  123456789:123456789errorm  (colons)\n  1234567890:1234567890errorm  (colons)\n\n",
    ),
    (
        Format::Colored,
        false,
        "\x1b[4ma b.yaml\x1b[0m\n  \x1b[2m1:1\x1b[0m       \x1b[31merror\x1b[0m    m  \x1b[2m(colons)\x1b[0m\n  \x1b[2m12:12\x1b[0m     \x1b[31merror\x1b[0m    m  \x1b[2m(colons)\x1b[0m\n  \x1b[2m123:123\x1b[0m   \x1b[31merror\x1b[0m    m  \x1b[2m(colons)\x1b[0m\n  \x1b[2m1234:1234\x1b[0m \x1b[33mwarning\x1b[0m  m  \x1b[2m(colons)\x1b[0m\n  \x1b[2m12345:12345\x1b[0m\x1b[31merror\x1b[0m   m  \x1b[2m(colons)\x1b[0m\n  \x1b[2m123456:123456\x1b[0m\x1b[31merror\x1b[0m m  \x1b[2m(colons)\x1b[0m\n  \x1b[2m1234567:1234567\x1b[0m\x1b[31merror\x1b[0mm  \x1b[2m(colons)\x1b[0m\n  \x1b[2m12345678:12345678\x1b[0m\x1b[31merror\x1b[0mm  \x1b[2m(colons)\x1b[0m\n  \x1b[2m123456789:123456789\x1b[0m\x1b[31merror\x1b[0mm  \x1b[2m(colons)\x1b[0m\n  \x1b[2m1234567890:1234567890\x1b[0m\x1b[31merror\x1b[0mm  \x1b[2m(colons)\x1b[0m\n\n",
    ),
    (
        Format::Github,
        false,
        "::group::a b.yaml\n::error file=a b.yaml,line=1,col=1::1:1 [colons] m\n::error file=a b.yaml,line=12,col=12::12:12 [colons] m\n::error file=a b.yaml,line=123,col=123::123:123 [colons] m\n::warning file=a b.yaml,line=1234,col=1234::1234:1234 [colons] m\n::error file=a b.yaml,line=12345,col=12345::12345:12345 [colons] m\n::error file=a b.yaml,line=123456,col=123456::123456:123456 [colons] m\n::error file=a b.yaml,line=1234567,col=1234567::1234567:1234567 [colons] m\n::error file=a b.yaml,line=12345678,col=12345678::12345678:12345678 [colons] m\n::error file=a b.yaml,line=123456789,col=123456789::123456789:123456789 [colons] m\n::error file=a b.yaml,line=1234567890,col=1234567890::1234567890:1234567890 [colons] m\n::endgroup::\n\n",
    ),
];
