//! Tests of open documents, and of changes of them.
#![tactic(auto)]

#[cfg(test)]
mod changes;
#[cfg(test)]
mod documents;
#[cfg(test)]
mod opened;
