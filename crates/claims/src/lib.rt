// The claims about interrupts: definitions and lemmas. No function yet.
#![tactic(auto)]
