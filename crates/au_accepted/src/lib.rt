//! Which files are accepted: they can be had and read, they are those of a program that the written rules
//! derive, and its variables have good lives. The crate holds definitions, in `specs/`.
#![tactic(auto)]
