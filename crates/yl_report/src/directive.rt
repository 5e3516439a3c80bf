//! The words of the comments that silence rules.
ghost use Rattle.std.specs.Prelude.{◌≡◌, ◌==◌, ◌&&◌, drop, bytes_eq};
ghost use Rattle.std.specs.List.{list_all, list_any, slice_split};
ghost use Rattle.yl_text.specs.Character.{is_non_space, without_end};
ghost use Rattle.yl_report.specs.Directive.{rest_speaks};
ghost use Rattle.yl_report.specs.Directive as spec;

use yl_rules::is_white;

fn all_non_space(word: &[u8]) -> bool
    ensures { result ≡ list_all is_non_space word.now }
{
    word.iter().all(|c| !is_white(*c))
}

// Returns the text without the white space at its end.
pub fn without_end(text: &[u8]) -> &[u8]
    ensures { result.now ≡ without_end text.now }
{
    let mut end = text.len();
    while end > 0 && is_white(text[end - 1]) {
        end -= 1;
    }
    &text[..end]
}

fn is_rule_word(word: &[u8]) -> bool
    ensures { result ≡ spec.is_rule_word word.now }
{
    let begins = word.starts_with(b"rule:");
    let is_long = word.len() > 5;
    begins & is_long & all_non_space(word)
}

// Returns `true` if the word, without its first 5 bytes, is the name `rule`.
fn is_name(word: &[u8], rule: &[u8]) -> bool
    ensures { result ≡ bytes_eq (drop 5 word.now) rule.now }
{
    if word.len() < 5 {
        return rule.is_empty();
    }
    let (_, name) = word.split_at(5);
    name == rule
}

fn are_rule_words(words: &[u8]) -> bool
    ensures { result ≡ list_all spec.is_rule_word (slice_split (λ x. x == 0x20) words.now) }
{
    words.split(|c| *c == b' ').all(|word| is_rule_word(word))
}

fn has_name(words: &[u8], rule: &[u8]) -> bool
    ensures { result ≡ list_any (λ w. bytes_eq (drop 5 w) rule.now) (slice_split (λ x. x == 0x20) words.now) }
{
    words.split(|c| *c == b' ').any(|word| is_name(word, rule))
}

fn names(words: &[u8], rule: &[u8]) -> bool
    ensures { result ≡ list_all spec.is_rule_word (slice_split (λ x. x == 0x20) words.now)
        && list_any (λ w. bytes_eq (drop 5 w) rule.now) (slice_split (λ x. x == 0x20) words.now) }
{
    let all = are_rule_words(words);
    let any = has_name(words, rule);
    all & any
}

// Returns `true` if the text starts with `words`, and nothing follows, or a space and words of the
// form `rule:NAME` between single spaces, one of which names `rule`.
pub fn speaks(text: &[u8], words: &[u8], rule: &[u8]) -> bool
    ensures { result ≡ spec.speaks text.now words.now rule.now }
{
    if !text.starts_with(words) {
        return false;
    }
    let (_, rest) = text.split_at(words.len());
    match rest {
        [] => true,
        [b' ', list @ ..] => names(list, rule),
        _ => false,
    }
}
