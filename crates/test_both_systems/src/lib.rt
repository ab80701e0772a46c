//! The end system that keeps its histories and the one that keeps no frame, its links in one group or more, are given the
//! same frames: on made schedules all replies, all counts and all messages of the ports are the same. So they are where
//! frames come in bursts, and where each network has a thread of its own: then the histories are given each link's frames
//! in the order that the threads came to.
#![tactic(auto)]

#[cfg(test)]
mod both;
#[cfg(test)]
mod ends;
#[cfg(test)]
mod kept;
#[cfg(test)]
mod live;
#[cfg(test)]
mod made;
#[cfg(test)]
mod threads;
