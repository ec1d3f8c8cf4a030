//! Tests on threads and with gates: claims of packet numbers, workers, a key that is replaced while
//! they work, and the merging of their logs with the events of control.
#![tactic(auto)]

#[cfg(test)]
mod crews;
#[cfg(test)]
mod desk;
#[cfg(test)]
mod frames;
#[cfg(test)]
mod gates;
#[cfg(test)]
mod logs;
#[cfg(test)]
mod meeting;
#[cfg(test)]
mod merging;
#[cfg(test)]
mod replacing;
#[cfg(test)]
mod watching;
