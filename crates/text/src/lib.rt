// Sheets typed at the bench (02, ticket 2): the notation and what a text makes, as definitions with their laws; no code.
#![tactic(auto)]
