// Words for lists and laws that several crates cite. No code.
#![tactic(auto)]
