//! What is true of every name.
ghost use Rattle.report_text.specs.Names.{NamesAreToldApart};

/// Two names are written alike only where they are the same.
pub fn names_are_told_apart()
    ensures { NamesAreToldApart }
{}
