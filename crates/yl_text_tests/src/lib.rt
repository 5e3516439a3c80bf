//! Tests of lists and stores in chunks, of random edits, of calls that must not allocate, and of
//! the first byte that is not printable ASCII. The cases of `yl_session_cases` test what is shown
//! of texts.
#![tactic(auto)]

#[cfg(test)]
mod chunks;
#[cfg(test)]
mod growths;
#[cfg(test)]
mod random_edits;
#[cfg(test)]
mod special;
#[cfg(test)]
mod stores;
#[cfg(test)]
mod texts;
