// Lists, loops, tests and counting: definitions and their laws. No code.
#![tactic(auto)]
