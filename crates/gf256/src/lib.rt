// The field GF(2^8) and the substitution box of FIPS 197: definitions and their laws.
#![tactic(auto)]
