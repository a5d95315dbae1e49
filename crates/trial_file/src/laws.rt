//! What holds of the database of a trial.
ghost use Rattle.trial_file.specs.Laws.{IsAlwaysSmall, IsAlwaysValid, TextHasNoFault, TextIsSound};

/// It can be written: its rows fit, rise by rowid, and no two have one name.
pub fn the_database_of_a_trial_can_be_written()
    ensures { IsAlwaysValid }
{}

/// On pages of 512 bytes its file has at most five pages for each row and seven more, and its load is below
/// 2^31.
pub fn the_database_of_a_trial_is_small()
    ensures { IsAlwaysSmall }
{}

/// The text of its table means the shape without a fault.
pub fn the_text_of_a_trial_has_no_fault()
    ensures means { TextIsSound }
    ensures none { TextHasNoFault }
{}
