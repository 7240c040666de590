// One printed form for each sheet (02, ticket 4): the printed form of a program, as a definition with its laws; no code.
#![tactic(auto)]
