// The driver's requests on both devices, with and without an interlock.
#![tactic(auto)]

#[cfg(test)]
mod devices;
#[cfg(test)]
mod examples;
#[cfg(test)]
mod reads;
#[cfg(test)]
mod runs;
#[cfg(test)]
mod sessions;
#[cfg(test)]
mod tests;
