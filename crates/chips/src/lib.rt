// Tests of handles: what the program of a chip sees when it claims a shim, makes calls through its handle, turns while it waits, and hands it back.
// No test can lose a handle: it leaves by `?` only while it holds none, and a failed assertion ends its process.
#![tactic(auto)]

#[cfg(test)]
mod ask;
#[cfg(test)]
mod call;
#[cfg(test)]
mod claims;
#[cfg(test)]
mod handing_back;
#[cfg(test)]
mod lists;
#[cfg(test)]
mod refused;
#[cfg(test)]
mod stand;
#[cfg(test)]
mod turns;
#[cfg(test)]
mod twin;
