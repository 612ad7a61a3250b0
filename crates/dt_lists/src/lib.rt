//! Words on lists that all definitions share, and what follows from them. There is no code here:
//! `specs/` has the words, `proofs/` their laws. Read next: `specs/Lists.antt`.
#![tactic(auto)]
