// Lines that are calls, lines that are none and what is said of them, refused calls, and what is printed.
#![tactic(auto)]

#[cfg(test)]
mod answers;
#[cfg(test)]
mod lines;
#[cfg(test)]
mod messages;
