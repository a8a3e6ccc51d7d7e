//! How many labels and ephemerons a command gives out, by its reply: what the runs of commands and the calls on tables
//! count alike.
