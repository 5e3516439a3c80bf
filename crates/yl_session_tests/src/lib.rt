//! Tests that need code of their own: random edits of sessions over both stores, the number of
//! bytes that a session holds, texts that are too large, and the number of writes of a report. The
//! cases of `yl_session_cases` test the answers to edits and the state after them, also when
//! allocations are refused.
#![tactic(auto)]

#[cfg(test)]
mod held;
#[cfg(test)]
mod printing;
#[cfg(test)]
mod random_edits;
#[cfg(test)]
mod sessions;
#[cfg(test)]
mod shown;
#[cfg(test)]
mod sizes;
