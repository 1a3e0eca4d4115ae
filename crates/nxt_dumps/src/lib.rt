//! Laws of right dumps: there is always one that keeps both laws, so a report that broke off goes on. There is no code here.
#![tactic(auto)]
