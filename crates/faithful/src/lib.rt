// That the stepping of the code is the stepping of the document: definitions and laws, no code of its own.
#![tactic(auto)]
