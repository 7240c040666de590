// New times on one statement (02, ticket 7) and the change taken back (ticket 8): what each makes of a sheet, as definitions with their
// laws; no code.
#![tactic(auto)]
