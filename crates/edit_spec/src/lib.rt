// What an edit means: definitions and their laws. No code.
#![tactic(auto)]
