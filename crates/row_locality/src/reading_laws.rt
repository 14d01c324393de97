//! The laws of reading. Each is the contract of a function that does nothing.

ghost use Rattle.row_locality.specs.ReadingLaws.{WhatIsSpelledIsRead, WhatIsWrittenIsRead, WhatIsReadIsSpelled};

/// What is spelled is read: the pair of a row is read as that row.
pub fn what_is_spelled_is_read()
    ensures of_pairs { WhatIsSpelledIsRead }
    ensures of_rows { WhatIsWrittenIsRead }
{}

/// What is read is spelled: a row that is read from a pair has that pair and no other.
pub fn what_is_read_is_spelled()
    ensures { WhatIsReadIsSpelled }
{}
