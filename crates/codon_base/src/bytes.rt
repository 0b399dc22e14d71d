use sqlite_items::Items;

/// Any bytes in order, as what a program prints. Contracts see the list of them.
pub type Bytes = Items<u8>;

/// The bytes that a token or a name is written with, in UTF-8.
pub type Spelling = Items<u8>;
