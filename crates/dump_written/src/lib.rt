#![tactic(auto)]

// A writer of plain dumps, as a definition: what it writes reads back as the levels that it was given. There is no code here.
