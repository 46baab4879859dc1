// A fresh card, and the call that writes one, as definitions: see specs/. Nothing here has a body.
#![tactic(auto)]
