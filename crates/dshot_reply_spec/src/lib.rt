#![tactic(auto)]

// What a DShot reply is: definitions in specs/, and theorems about them in proofs/. There is no code here, so no definition can rest on the code that
// it judges. The crate `dshot_reply` is proved equal to these definitions.
