// The parts of a file.

use nxt_types::lists::{Bytes, ClumpRecs, Entries, Words};

/// The numbers at a file's head, behind its version (Executable File Specification, "Header").
#[derive(Clone, Copy, PartialEq, Eq, Debug)]
pub struct Header {
    /// Records of the dataspace table.
    pub toc_count: u16,
    /// Bytes of the dataspace at the start.
    pub initial: u16,
    /// Bytes of the static variables.
    pub static_size: u16,
    /// Bytes of the default data.
    pub default_size: u16,
    /// The place of the dynamic defaults in the default data, in bytes.
    pub dyn_at: u16,
    /// Bytes of the dynamic defaults.
    pub dyn_size: u16,
    /// The memory manager's head.
    pub head: u16,
    /// The memory manager's tail.
    pub tail: u16,
    /// The place of the dope vectors in the dataspace, in bytes.
    pub dope_at: u16,
    /// Clump records.
    pub clump_count: u16,
    /// Words of code.
    pub word_count: u16,
}

/// The parts of a file: its header and its five sections.
#[derive(Drop)]
pub struct Parts {
    pub header: Header,
    /// The dataspace table ("Dataspace Table of Contents").
    pub toc: Entries,
    /// The default data: static defaults, and dynamic defaults.
    pub defaults: Bytes,
    /// The clump records ("Clump Records").
    pub clumps: ClumpRecs,
    /// The dependents of each clump, one clump after another.
    pub dependents: Bytes,
    /// The code words.
    pub code: Words,
}

/// The clumps of a file, and the code that they run.
#[derive(Drop)]
pub struct CodeSections {
    pub clumps: ClumpRecs,
    pub dependents: Bytes,
    pub code: Words,
}
