//! Tests of the formats against the output of yamllint for the same problems, and with a writer
//! that fails.
#![tactic(auto)]

#[cfg(test)]
mod printing;
#[cfg(test)]
mod problems;
