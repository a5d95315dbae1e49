//! What holds of every well-formed file in scope.
ghost use Rattle.round_trip.specs.Found.{HeadersAreFound};
ghost use Rattle.round_trip.specs.Laws.{FilesComeBack, PagesAreAll};

/// Without options the pages of a well-formed file are those that its header gives: no byte is left behind
/// them, and its texts are not in UTF-16.
pub fn the_header_of_a_well_formed_file_is_found()
    ensures { HeadersAreFound }
{}

/// The pages 1 to n of a file are all its pages: a salvage begins with these unused.
pub fn the_pages_of_a_file_are_all()
    ensures { PagesAreAll }
{}

/// Of a well-formed file of at most 2^28 bytes, in which no text of a table that has a tree has a fault, the
/// tables come back with their rows; no cell is lost, bad or unread, and no tree is an orphan.
pub fn a_well_formed_file_comes_back()
    ensures { FilesComeBack }
{}
