// The capture file of M-100: what it is, what writing and reading it answer, that they agree both ways. Definitions and laws, no code.
#![tactic(auto)]
