//! Tests of `osiris_audit`: what no clause there says.
#![tactic(auto)]

#[cfg(test)]
mod files;
#[cfg(test)]
mod inspections;
#[cfg(test)]
mod long_files;
#[cfg(test)]
mod rebuilt;
