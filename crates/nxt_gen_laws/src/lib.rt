//! Every generated text keeps the rules of texts and of the assembler. There is no code here.
#![tactic(auto)]
