// Tables, the netting fill and written sheets, at their edges.
#![tactic(auto)]

#[cfg(test)]
mod sources;
#[cfg(test)]
mod written;
