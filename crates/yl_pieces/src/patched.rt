//! What is told of a section, patched by lines. The function here does nothing.
ghost use Rattle.yl_pieces.specs.Patched.{ToldIsPatched};

/// A law: where rows of a section come in place of others, and the section had no fault, what is
/// told of it is what was told before in the lines above them and, moved, in those below them, with
/// what is told of the new rows by themselves in between.
pub fn told_is_patched()
    ensures { ToldIsPatched }
{}
