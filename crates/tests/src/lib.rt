// Tests at the boundaries, of all crates in one: it loads once what each of several would load.

#![tactic(auto)]

#[cfg(test)]
mod answering;
#[cfg(test)]
mod building;
#[cfg(test)]
mod coding;
#[cfg(test)]
mod comparing;
#[cfg(test)]
mod evaluating;
#[cfg(test)]
mod holding;
#[cfg(test)]
mod lexing;
#[cfg(test)]
mod limiting;
#[cfg(test)]
mod loading;
#[cfg(test)]
mod owning;
#[cfg(test)]
mod pairing;
#[cfg(test)]
mod printing;
#[cfg(test)]
mod reading;
#[cfg(test)]
mod refusing;
#[cfg(test)]
mod reporting;
#[cfg(test)]
mod running;
#[cfg(test)]
mod showing;
