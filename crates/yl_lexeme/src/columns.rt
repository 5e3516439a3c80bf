//! Laws of the columns that `Surroundings` hold.
ghost use Rattle.yl_lexeme.specs.Columns.{ColumnsAreOpen, ColumnsFall};

/// Laws: the columns that looking back over the lexemes finds are those of the open block
/// collections, if no lexeme gives a column to the left of an open one that it does not close. They
/// are in descending order.
pub fn columns_are_open()
    ensures open { ColumnsAreOpen }
    ensures falling { ColumnsFall }
{}
