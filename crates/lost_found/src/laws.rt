//! What holds of the name and the text.

ghost use Rattle.lost_found.specs.Laws.{HasFirstName, HasOneName, TextSaysShape};

/// The name is the first that is free, and there always is one.
pub fn the_name_is_the_first_that_is_free()
    ensures { HasFirstName }
{}

/// No other name is the first that is free.
pub fn the_name_is_one()
    ensures { HasOneName }
{}

/// The text says the shape, whatever the name and for up to 1,996 fields.
pub fn the_text_says_the_shape()
    ensures { TextSaysShape }
{}
