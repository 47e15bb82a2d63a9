#![tactic(auto)]

// A bank's state in lent slots: where each field lies, and theorems about it in proofs/. There is no code here, so no definition can rest on the code
// that it judges. The crate `bank_slots` is proved to meet these definitions.
