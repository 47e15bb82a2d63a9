// The library for C: one archive of exported functions on numbers and slices.
//
// Each call checks the lengths of the slices that it is lent. It returns the number of its refusal in document 01, or 0 when it is done. A refused
// call leaves every slot as it was. If a call cannot refuse, it returns the result itself. Numbers are 32 bits wide or a `usize`. Clocks in
// milliseconds are 64 bits wide. If a number is wider than what it stands for, the call says what counts. In a flag, 0 means no, and any other number
// means yes. No `bool`, enum or struct is passed.
#![tactic(auto, unfolding(crate::specs::Slots::asked))]

// A bank, with its state in lent slots.
pub mod bank;
// Capture files and the bench's line.
pub mod capture;
// Throttles, command runs and leases.
pub mod command;
// The readers of packets and sequences.
pub mod frame_read;
// Packets.
pub mod packet;
// Replies and the simulated ESC.
pub mod reply;
mod slots;
// Timing, duties and sequences.
pub mod timing;
