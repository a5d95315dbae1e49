//! What the definitions of accepted cells say.
ghost use Rattle.cell_reader.specs.Spelling.{ReadIsSpelled, ReadsBack, ReadsBackOnPage};
ghost use Rattle.cell_reader.specs.Laws.{AcceptedAreApart, MarksTellVerdicts, OffersTellRanges};

/// No two accepted cells of a page share a byte.
pub fn accepted_cells_are_apart()
    ensures { AcceptedAreApart }
{}

/// A walk over the cells of a page that marks the bytes of each cell it accepts, and accepts those
/// none of whose bytes is marked, accepts the cells that overlap no accepted cell before them.
pub fn marks_tell_verdicts()
    ensures { MarksTellVerdicts }
{}

/// An offer is taken exactly where the range shares no byte with those that are held.
pub fn offers_tell_ranges()
    ensures { OffersTellRanges }
{}

/// A cell that is spelled is read back, whatever follows it and wherever on a page it stands.
pub fn a_spelled_cell_is_read_back()
    ensures parts { ReadsBack }
    ensures page { ReadsBackOnPage }
{}

/// A cell that is read is spelled by its bytes, and its payload is neither empty nor too long.
pub fn a_read_cell_is_spelled()
    ensures { ReadIsSpelled }
{}
