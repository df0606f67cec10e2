// Trials: a second implementation of the rules, by another algorithm, and what it says against what the libraries say.
#![tactic(auto)]

#[cfg(test)]
mod any_calls;
#[cfg(test)]
mod below;
#[cfg(test)]
mod bounds;
#[cfg(test)]
mod buckets;
#[cfg(test)]
mod causes;
#[cfg(test)]
mod chance;
#[cfg(test)]
mod colours;
#[cfg(test)]
mod contents;
#[cfg(test)]
mod counted;
#[cfg(test)]
mod drafts;
#[cfg(test)]
mod entries;
#[cfg(test)]
mod envelope_calls;
#[cfg(test)]
mod figures;
#[cfg(test)]
mod independence;
#[cfg(test)]
mod limits;
#[cfg(test)]
mod lone_meter;
#[cfg(test)]
mod meters;
#[cfg(test)]
mod opened;
#[cfg(test)]
mod places;
#[cfg(test)]
mod profiles;
#[cfg(test)]
mod reports;
#[cfg(test)]
mod rows;
#[cfg(test)]
mod shares;
#[cfg(test)]
mod windows;
