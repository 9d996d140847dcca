// Payments worked by hand, with and without the incentive component, and each refusal of the book in its order.
#![tactic(auto)]

#[cfg(test)]
mod calls;
#[cfg(test)]
mod payments;
#[cfg(test)]
mod refusals;
#[cfg(test)]
mod rulebooks;
