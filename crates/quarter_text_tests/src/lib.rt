// Texts that are refused, texts that are read, also line by line, printed texts, and quarters there and back.
#![tactic(auto)]

#[cfg(test)]
mod generator;
#[cfg(test)]
mod messages;
#[cfg(test)]
mod printed;
#[cfg(test)]
mod read;
#[cfg(test)]
mod reader;
#[cfg(test)]
mod refusals;
#[cfg(test)]
mod texts;
