//! No two codes of accepted programs have one C text. The law of `au_cprint` asks that numbers are as wide
//! as the code's types make them, and that names have no quotation mark. Here it is shown that the numbers
//! of each code that a program can hold are so (`codes`), and that names of accepted programs are plain
//! (`names`).
#![tactic(auto)]

pub mod codes;
pub mod laws;
pub mod names;
