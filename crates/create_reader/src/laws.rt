//! What holds of texts and shapes.

ghost use Rattle.create_reader.specs.Laws.{IsRelated, IsValid, IsWithin, OneShape};

/// A text is related to at most one shape.
pub fn a_text_has_one_shape()
    ensures { OneShape }
{}

/// What a text is related to has the invariant of shapes.
pub fn the_shape_of_a_text_is_valid()
    ensures { IsValid }
{}

/// A shape that a text means without a fault is related to the text.
pub fn what_is_read_is_related()
    ensures { IsRelated }
{}

/// What a text is related to is what it means without a fault, where it has not too many columns
/// or keys.
pub fn what_is_related_is_read()
    ensures { IsWithin }
{}
