#![tactic(auto)]

// What a bank of DShot motors does: definitions in specs/, and theorems about lists of calls in proofs/. There is no code here, so no definition can
// rest on the code that it judges. The crate `dshot_bank` is proved equal to these definitions.
