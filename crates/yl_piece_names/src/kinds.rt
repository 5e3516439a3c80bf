//! The collections that are open before a run, by what counts of them. No function here does anything.
ghost use Rattle.yl_piece_names.specs.KindsAndTurns.{KindsAndTurns};

/// A law: of the collections that are open before a run, the kinds and turns say what counts after the
/// run alone, how low the run goes, which names it asks for and what is found at it alone. What counts of
/// them says whether keys from before the run have a part in what is found at it.
pub fn kinds_and_turns_suffice()
    ensures { KindsAndTurns }
{}
