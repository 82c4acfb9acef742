// Calls computed by the checker: theorems of RULES 10, 11 and 13 about searches and judgements that exist, searches over counts
// (RULES 12.7), and the ground left on small windows (RULES 7.8).
#![tactic(auto)]
