//! What a driver of many pools answers to a step after a history: definitions, with what is computed of them and proved of them alone (SDAM, "Server Discovery and Monitoring"). Nothing
//! here knows how a driver is kept.
#![tactic(auto)]
