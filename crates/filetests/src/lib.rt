// Examples of rows, drafts and flight files, at the edge of each refusal, and of printed records.
#![tactic(auto)]

#[cfg(test)]
mod drafts;
#[cfg(test)]
mod files;
