//! Examples of devices and one server over a network that repeats and delays, and of stops, with ample memory.
#![tactic(auto)]

#[cfg(test)]
mod chance;
#[cfg(test)]
mod choices;
#[cfg(test)]
mod crowd;
#[cfg(test)]
mod events;
#[cfg(test)]
mod lines;
#[cfg(test)]
mod playing;
#[cfg(test)]
mod told;
