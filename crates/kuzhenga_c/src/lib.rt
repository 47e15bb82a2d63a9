// The static library for C. Each call is the call of the same name of the library `kuzhenga`, with the same promise.
//
// tools/exports makes these files from those of `kuzhenga`.

#![tactic(auto)]

// A bank, with its state in lent slots.
pub mod bank;
// Capture files and the bench's line.
pub mod capture;
// Throttles, command runs and leases.
pub mod command;
// The readers of packets and sequences.
pub mod frame_read;
// Packets.
pub mod packet;
// Replies and the simulated ESC.
pub mod reply;
// Timing, duties and sequences.
pub mod timing;
