//! Laws of blocks in a pool: how they settle, slide and get longer. There is no code here.
#![tactic(auto)]
