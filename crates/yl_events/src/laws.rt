//! Laws of documents and events. No function here does anything.

ghost use Rattle.std.specs.Prelude.{◌≡◌, ◌≤◌, ℕ, List, length, map};
ghost use Rattle.yl_lexeme.specs.Lexeme.{LexemeValue};
ghost use Rattle.yl_marks.specs.declared.symbol.Symbol.{Symbol};
ghost use Rattle.yl_events.specs.declared.symbol.Outline.{Outline};
ghost use Rattle.yl_marks.specs.Keys.{token_of};
ghost use Rattle.yl_marks.specs.Marks.{symbols_of_lexemes};
ghost use Rattle.yl_marks.specs.ByLine.{by_line};
ghost use Rattle.yl_events.specs.Cut.{CutsByTwo};
ghost use Rattle.yl_events.specs.Derives.{Derives, HasFaultAt};
ghost use Rattle.yl_events.specs.Event.{EventValue, AreEvents};
ghost use Rattle.yl_events.specs.Parsing.{parser_at_start, start_events, document_outcome_of_lines, Gives};
ghost use Rattle.yl_events.specs.SymbolParsing.{ToldBehind};
ghost use Rattle.yl_events.specs.ParsedAlike.{SymbolsAreParsedAlike};

/// Laws: a document has at most one list of events. `marked` says so of its marked lexemes, and
/// `events` of its lexemes.
pub fn one_derivation()
    ensures marked { (ws : List Symbol) (es fs : List Outline) → Derives ws es → Derives ws fs → es ≡ fs }
    ensures events { (xs : List LexemeValue) (es fs : List EventValue) → AreEvents xs es → AreEvents xs fs → es ≡ fs }
{}

/// Laws: a document has at most one fault, and none if it has events. The fault is at one of its
/// lexemes or after all of them.
pub fn one_fault()
    ensures one { (ws : List Symbol) (i j : ℕ) → HasFaultAt ws i → HasFaultAt ws j → i ≡ j }
    ensures none { (ws : List Symbol) (es : List Outline) (i : ℕ) → Derives ws es → HasFaultAt ws i → ⊥ }
    ensures inside { (xs : List LexemeValue) (i : ℕ) → HasFaultAt (symbols_of_lexemes xs) i → i ≤ length xs }
{}

/// A law: what the parser computes from the lines of a document's lexemes are the events of its
/// derivation, or its fault.
pub fn told_documents()
    ensures { (xs : List LexemeValue) → Gives xs (document_outcome_of_lines parser_at_start start_events (by_line (map token_of xs))) }
{}

/// A law: if directives are only where a text allows them, two successive lexemes determine whether
/// a document begins between them.
pub fn documents_cut_by_two()
    ensures { CutsByTwo }
{}

/// A law: the events before some symbols of a document precede those of the symbols, and do not
/// change them.
pub fn told_behind()
    ensures { ToldBehind }
{}

/// A law: two parsers in the same state tell the same of the same symbols, but for how many lexemes
/// come before and which lexemes are anchors, and are in the same state after them. A state has no
/// index of a lexeme.
pub fn symbols_are_parsed_alike()
    ensures { SymbolsAreParsedAlike }
{}
