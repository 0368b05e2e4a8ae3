#![tactic(auto)]

// No code: laws of the machine's events, for the layers above.
