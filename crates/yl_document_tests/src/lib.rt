//! Tests of calls over one whole document. No program makes these calls: the programs read
//! documents line by line, and the cases of `yl_text_cases` show what that gives. Also tests of the
//! states of the machines that read a document row by row.
#![tactic(auto)]

#[cfg(test)]
mod borders;
#[cfg(test)]
mod calls;
#[cfg(test)]
mod machines;
#[cfg(test)]
mod refusals;
#[cfg(test)]
mod rows;
#[cfg(test)]
mod states;
#[cfg(test)]
mod told;
