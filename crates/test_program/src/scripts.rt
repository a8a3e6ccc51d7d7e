//! Tests of the program from bytes to bytes, through its top call over memory.
#[cfg(test)]
mod beside;
#[cfg(test)]
mod chains;
#[cfg(test)]
mod endless;
#[cfg(test)]
mod ephemerons;
#[cfg(test)]
mod faults;
#[cfg(test)]
mod finalisers;
#[cfg(test)]
mod generated;
#[cfg(test)]
mod long;
#[cfg(test)]
mod pauses;
#[cfg(test)]
mod program;
#[cfg(test)]
mod race;
#[cfg(test)]
mod rows;
