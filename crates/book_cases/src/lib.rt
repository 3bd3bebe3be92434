//! Tables of cases that every book must pass: each refusal at its edges, and that it changes nothing; the refusals' numbers stand in a
//! table of their own.
#![tactic(auto)]

#[cfg(test)]
mod calls;
#[cfg(test)]
mod tests;
