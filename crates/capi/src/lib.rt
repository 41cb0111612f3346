// The C boundary. Numbers pass as themselves, but for a state's count, which is written, a slice as a pointer and a
// length, an array as a pointer, an answer as a struct by value. No function asks anything of the bytes it is lent.
// What a caller must see to (no null pointer, lengths that are true, an out or a state that is initialised and overlaps
// no input) stands in include/trawlbeacon.h.
#![tactic(auto)]

mod batching;
mod building;
mod clocking;
mod finding;
mod hashing;
mod judging;
mod listing;
mod pieces;
mod piling;
mod publishing;
mod reading;
mod reusing;
mod seeds;
mod serving;
mod signing;
mod stamping;
mod tallying;
mod verifying;
mod walking;
mod writing;
