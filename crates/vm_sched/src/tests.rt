//! Rows of lines, played step by step and under seeds.

mod order;
mod play;
mod raws;
mod scripts;
