//! The law of text literals. It is the contract of a function that does nothing.

ghost use Rattle.region_sql.specs.TextLiterals.{ReadTextsAreUtf8};

/// The text literals of a list are UTF-8, whatever bytes it was read from.
pub fn list_texts_are_utf8()
    ensures { ReadTextsAreUtf8 }
{}
