//! Tests of the printed lexemes, events and lines of a text, also with writers that fail.
#![tactic(auto)]

#[cfg(test)]
mod memory;
#[cfg(test)]
mod refused;
#[cfg(test)]
mod shown;
#[cfg(test)]
mod views;
