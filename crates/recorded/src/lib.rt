// Following what the machine recorded (02, ticket 9): which records are runs of a sheet, as definitions with their laws; no code.
#![tactic(auto)]
