//! What crosses between a loader and its host in C, whichever loader it is: keys, the limits of tables, answers and their
//! codes, the seed of hashes, and a box as its pointer.
#![tactic(auto)]

pub mod answers;
pub mod box_parts;
pub mod codes;
pub mod key_lists;
pub mod key_texts;
pub mod seed;
pub mod tables;
