//! Tests of the program and of the libraries below it. They stand in one crate, since a crate that
//! has tests is proved a second time.
mod audits;
mod cut_scripts;
mod devices;
mod failures;
mod large_sizes;
mod long_lines;
mod long_messages;
mod plays;
mod programs;
mod signing;
mod texts;
mod token;
