// What makes a reading of an input, by the source that a configuration names, as claims alone: the one place that knows both sources.
// The function is `scaling::read`.
#![tactic(auto)]
