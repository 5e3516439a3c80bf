//! Laws of places.
ghost use Rattle.yl_units.specs.Places.{PlacesLeadBack, ColumnsAreLast, ColumnsAreWithin};

/// A law: what an editor is told of a place in a line leads back to that place.
pub fn places_lead_back()
    ensures { PlacesLeadBack }
{}

/// Laws: the column that an editor names is the last one of its line with no more units before it.
pub fn columns_are_last()
    ensures last { ColumnsAreLast }
    ensures within { ColumnsAreWithin }
{}
