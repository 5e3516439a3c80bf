//! Misfits: the parts of a configuration that do not fit.
ghost use Rattle.std.specs.Prelude.{◌≡◌, ◌||◌, ◌∷◌, [], Some};
ghost use Rattle.yl_config.specs.Misfits.{comes_before, earlier, rank};

use crate::syntax::stands_before;
use yl_text::Pos;

/// Why a part of a configuration does not fit.
#[derive(Clone, Copy)]
pub enum MisfitKind {
    /// The root is not a mapping, or there is a second document.
    NotAMapping,
    /// The root has a key that is unknown.
    UnknownKey,
    /// `rules` names a rule that is unknown.
    UnknownRule,
    /// A rule has no option of this name.
    UnknownOption,
    /// A key, a rule or an option does not take the value, or the value is an alias.
    BadValue,
    /// The level of a rule is neither `error` nor `warning`.
    BadLevel,
    /// The value of `extends` is not `default`.
    UnknownExtends,
}

/// A part of a configuration that does not fit.
#[derive(Clone, Copy)]
pub struct Misfit {
    /// Why the part does not fit.
    pub kind: MisfitKind,
    /// The position of the part. Its line and its column count from 0.
    pub place: Pos,
}

/// Returns the rank of a kind. Of two misfits at one position, the one of the lower rank comes
/// first.
fn rank(kind: MisfitKind) -> u8
    ensures { result ≡ rank kind }
{
    match kind {
        MisfitKind::NotAMapping => 3,
        MisfitKind::UnknownKey => 4,
        MisfitKind::UnknownRule => 5,
        MisfitKind::UnknownOption => 6,
        MisfitKind::BadValue => 7,
        MisfitKind::BadLevel => 8,
        MisfitKind::UnknownExtends => 9,
    }
}

/// Returns whether the misfit `f` comes before the misfit `g`: by position, then by rank.
fn comes_before(f: Misfit, g: Misfit) -> bool
    ensures { result ≡ comes_before f g }
{
    let is_same_place = f.place.line == g.place.line && f.place.col == g.place.col;
    stands_before(f.place, g.place) || (is_same_place && rank(f.kind) < rank(g.kind))
}

/// Returns the earlier of two misfits, or `misfit` if there is no other.
pub fn earlier(first: Option<Misfit>, misfit: Misfit) -> Misfit
    ensures { result ≡ earlier first misfit }
{
    match first {
        Some(first) if comes_before(first, misfit) => first,
        _ => misfit,
    }
}
