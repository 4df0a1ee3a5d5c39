//! Tests of the applications by their public calls.
#![tactic(auto)]

#[cfg(test)]
mod idle;
#[cfg(test)]
mod mutex;
#[cfg(test)]
mod mutex_links;
#[cfg(test)]
mod routes;
#[cfg(test)]
mod routes_links;
#[cfg(test)]
mod texts;
#[cfg(test)]
mod token;
