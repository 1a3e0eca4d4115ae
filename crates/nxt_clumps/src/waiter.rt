// Clumps that wait for a mutex.

/// A clump that waits for the mutex of a table entry.
#[derive(Clone, Copy)]
pub(crate) struct Waiter {
    pub mutex: u16,
    pub clump: u8,
}
