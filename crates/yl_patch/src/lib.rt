//! What an edit makes of the problems that are found in a text.
//!
//! The problems that are found in a text, before comments silence some and a fault hides some, are
//! those of its lines and those of its sections, one section after another. So an edit within some
//! sections changes the problems in the lines of these sections and moves the problems below.
//! Below, only indentation may be judged otherwise. `yl_found` keeps all problems in two lists,
//! those that are shown and those that are suppressed, and `patched_problems` says what an edit
//! makes of both.
//!
//! Each problem below stays in its list if the touched sections hide it as before and their
//! comments say the same of it. If they do not, or if indentation below is judged again, all
//! problems below are split again. The text's fault is put in its place among the shown problems.
#![tactic(auto)]

mod below;
mod indentation;
mod measures;
mod patching;
mod seen;
mod speaking;
mod touched;

pub use patching::patched_problems;
