//! Tests of the public calls of the layers below a domain's turns, a file for each layer.
#[cfg(test)]
mod darkening_beside_calls;
#[cfg(test)]
mod fixtures;
#[cfg(test)]
mod heap_rule_calls;
#[cfg(test)]
mod hints_calls;
#[cfg(test)]
mod minor_area_calls;
#[cfg(test)]
mod safepoint_calls;
#[cfg(test)]
mod size_pools_calls;
