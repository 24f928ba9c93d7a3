// Tests of the libraries, each over a table of cases.
#![tactic(auto)]

#[cfg(test)]
mod building;
#[cfg(test)]
mod certificates_read;
#[cfg(test)]
mod deliveries_received;
#[cfg(test)]
mod events_refused;
#[cfg(test)]
mod inquiries_answered;
#[cfg(test)]
mod long_ways_found;
#[cfg(test)]
mod sheets_checked;
#[cfg(test)]
mod sheets_found;
#[cfg(test)]
mod ways_found;
