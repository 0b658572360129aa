ghost use Rattle.row_codec.specs.Alone.{OneCellOrFault, SoManyCellsOrFault, NoCellBeginsAnother, NoCellsBeginOthers};

/// At each place of bytes one cell stands, or they have one fault there, and not both; and so for so many
/// cells one after another.
pub fn one_answer_at_each_place()
    ensures cell { OneCellOrFault }
    ensures cells { SoManyCellsOrFault }
{}

/// No spelling of a cell begins another's, nor that of equally many cells, so equal spellings are
/// of equal cells.
pub fn no_spelling_begins_another()
    ensures cell { NoCellBeginsAnother }
    ensures cells { NoCellsBeginOthers }
{}
