//! Tests of the positions of an editor, of the ranges of problems, and of the messages that are
//! read and written.
#![tactic(auto)]

#[cfg(test)]
mod messages;
#[cfg(test)]
mod params;
#[cfg(test)]
mod places;
#[cfg(test)]
mod ranges;
#[cfg(test)]
mod settings;
#[cfg(test)]
mod texts;
