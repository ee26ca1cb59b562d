// Names, digits and texts, as lists of bytes.
use sqlite_items::Items;

/// The bytes of a name, without backquotes.
pub type Name = Items<u8>;
/// Decimal digits without leading zeros; zero is the one digit 0.
pub type Digits = Items<u8>;
/// The bytes that a quoted text stands for.
pub type Quoted = Items<u8>;
