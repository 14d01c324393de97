//! The laws of lawful journals. Each is the contract of a function that does nothing.

ghost use Rattle.one_node_laws.specs.Laws.{ServedIsHeld, LawfulIsSerial, LawfulIsVisible};

/// What a read was served is what the whole run holds below its timestamp.
pub fn served_is_held()
    ensures { ServedIsHeld }
{}

/// A lawful journal is serial: its answers are those of one site that executes the decided transactions
/// one after the other, in the order of their timestamps.
pub fn lawful_is_serial()
    ensures { LawfulIsSerial }
{}

/// A lawful journal is visible: no transaction misses, in what it reads, what was acknowledged before it
/// began.
pub fn lawful_is_visible()
    ensures { LawfulIsVisible }
{}
