//! Laws of the rules on keys and anchors.
ghost use Rattle.yl_tree.specs.Order.{OrderOfCodePoints};
ghost use Rattle.yl_tree.specs.Sufficient.{ReferencesSuffice};

/// A law: texts have the same order by their bytes in UTF-8 as by their code points. The call does
/// nothing.
pub fn code_point_order()
    ensures { OrderOfCodePoints }
{}

/// A law: the findings of the rule anchors depend, of each event, only on its place, its anchor
/// and, if it is an alias, its name. The call does nothing.
pub fn references_suffice()
    ensures { ReferencesSuffice }
{}
