// Routes: definitions and their theory. No code.
#![tactic(auto)]
