// Laws of the rule book that more than one crate uses; specifications alone.

#![tactic(auto)]
