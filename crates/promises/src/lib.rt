// The promises: theorems over the rule book. No code stands here; see specs/. `promises_of_calls` takes some of them to the calls.
#![tactic(auto)]
