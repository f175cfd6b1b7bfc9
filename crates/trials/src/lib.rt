// Tests of the library's public calls at their limits.
#![tactic(auto)]

#[cfg(test)]
mod line_trials;
#[cfg(test)]
mod number_trials;
#[cfg(test)]
mod sign_trials;
#[cfg(test)]
mod source_trials;
