// Tests of readings, stores and walks on sheets that are read from text.
#![tactic(auto)]

#[cfg(test)]
mod reading_trials;
#[cfg(test)]
mod refusal_trials;
#[cfg(test)]
mod sheets;
#[cfg(test)]
mod store_trials;
#[cfg(test)]
mod walks;
