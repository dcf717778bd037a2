// Tables of examples for the layers below. What is expected was worked out by hand from the
// rules in docs/, never from the code.
#![tactic(auto)]

#[cfg(test)]
mod checks;
#[cfg(test)]
mod machines;
#[cfg(test)]
mod memories;
