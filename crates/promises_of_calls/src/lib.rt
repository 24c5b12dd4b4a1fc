// The promises carried to the calls that a host makes: of the device by value, over lent state, and of the exports. All of it is in specs/.
#![tactic(auto)]
