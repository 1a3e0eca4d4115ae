// Words of statements that name no entry, how many there are, and the properties of devices.

/// The word that leaves an operand out.
pub const LEFT_OUT: u16 = 0xFFFF;

/// The first word that names nothing, however long the table is.
pub const NAMELESS: u16 = 0xC000;

/// The most entries of the table that a text declares.
pub const MOST_ENTRIES: u32 = 49_151;

/// The greatest property of a sensor (Executable File Specification, "GETIN").
pub const LAST_INPUT: u16 = 5;

/// The greatest property of a motor (Executable File Specification, "GETOUT").
pub const LAST_OUTPUT: u16 = 14;
