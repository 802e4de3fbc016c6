// Examples of waiting orders at their edges, a long random run beside a plain model, and a third order.
#![tactic(auto)]

#[cfg(test)]
mod edges;
#[cfg(test)]
mod latest;
#[cfg(test)]
mod random;
