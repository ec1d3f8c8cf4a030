//! Tests of key agreement and of received frames that no command can show: lives of a station's peer
//! lists and keys, two stations of a group, receive slots, and what is told of secrets, with what
//! they come to by other programs or worked out by hand.
#![tactic(auto)]

#[cfg(test)]
mod key_lives;
#[cfg(test)]
mod peers;
#[cfg(test)]
mod receiving;
#[cfg(test)]
mod secrets;
#[cfg(test)]
mod station_frames;
#[cfg(test)]
mod stations;
