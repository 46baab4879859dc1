// What each call does, as definitions: see specs/. Nothing here has a body.
#![tactic(auto)]
