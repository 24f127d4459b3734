//! Tests of the commands: worked texts and files over readers and writers in memory, each with both outputs and the exit
//! status; and command lines with what they give, and mistakes in them. It holds no other code.
#![tactic(auto)]

#[cfg(test)]
mod accepted;
#[cfg(test)]
mod alone;
#[cfg(test)]
mod compared;
#[cfg(test)]
mod cut;
#[cfg(test)]
mod devices;
#[cfg(test)]
mod headers;
#[cfg(test)]
mod large;
#[cfg(test)]
mod left_out;
#[cfg(test)]
mod names;
#[cfg(test)]
mod param_texts;
#[cfg(test)]
mod read_faults;
#[cfg(test)]
mod refused;
#[cfg(test)]
mod run;
#[cfg(test)]
mod schema_texts;
#[cfg(test)]
mod schemas;
#[cfg(test)]
mod sections;
#[cfg(test)]
mod surveyed;
#[cfg(test)]
mod watched;
#[cfg(test)]
mod words;
#[cfg(test)]
mod write_faults;
