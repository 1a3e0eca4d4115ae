// Texts that are parsed.

use crate::spelling::program;
use nxt_model::nbc::NbcProgram;
use nxt_nbc::parse;
use nxt_nbc_lines::{LONGEST_TEXT, NbcFault};
use std::alloc::Global;
use std::test::Fail;

/// The program of a text. Of a longer one only the front is looked at.
pub(crate) fn parsed(alloc: Global, text: &[u8]) -> Result<NbcProgram, NbcFault> {
    parse(alloc, &text[..text.len().min(LONGEST_TEXT)])
}

/// The program of a text in words, or its fault.
pub(crate) fn read(alloc: Global, text: &[u8]) -> Result<String, Fail> {
    match parsed(alloc, text) {
        Ok(spelled) => program(alloc, &spelled),
        Err(fault) => Ok(format!(in alloc; "{fault:?}")?),
    }
}

/// The fault of a text, or that it has none.
pub(crate) fn fault(alloc: Global, text: &[u8]) -> Result<String, Fail> {
    Ok(match parsed(alloc, text) {
        Ok(_) => format!(in alloc; "none")?,
        Err(fault) => format!(in alloc; "{fault:?}")?,
    })
}
