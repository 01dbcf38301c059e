// Claims on whole runs, with their proofs; no code of its own.
#![tactic(auto)]
