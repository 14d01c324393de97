//! The law of names. It is the contract of a function that does nothing.

ghost use Rattle.descriptors.specs.Laws.{ReadNamesAreUtf8};

/// The names that a statement brings into a catalog are UTF-8, whatever bytes it was read from.
pub fn new_names_are_utf8()
    ensures { ReadNamesAreUtf8 }
{}
