#![tactic(auto)]

// Added by document 02: definitions of value change dumps, with laws about them and no code. The promises of the crate `dump` cite them.
