// [s]B of a secret s, by a comb of four teeth: the bits of four words of s go in column by column, and the row of the
// table that a column stands for is added. Nothing branches on s, and no address hangs on it.
#![tactic(auto)]

mod columns;
mod table;
mod turns;

pub use turns::times_base;
