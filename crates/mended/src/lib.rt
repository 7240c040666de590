// Mending a garbled sheet (02, ticket 13): what a sheet is mended into, as definitions with their laws; no code.
#![tactic(auto)]
