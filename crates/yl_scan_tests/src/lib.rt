//! Tests of the scanner and of the recorder that only one who calls them row by row can make. What they tell of texts is shown by the cases of
//! `yl_text_cases`.
#![tactic(auto)]

#[cfg(test)]
mod deep;
#[cfg(test)]
mod feeding;
#[cfg(test)]
mod refused;
#[cfg(test)]
mod resumed;
#[cfg(test)]
mod shown;
#[cfg(test)]
mod texts;
