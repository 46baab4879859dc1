// The worked card of the requirements, row by row, and that the theorems of safety speak of it. Nothing here has a body.
#![tactic(auto)]
