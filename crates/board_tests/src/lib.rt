//! Tests of fault_merge, board_core and piece_board, which they see as another crate does. There is
//! nothing else in this crate.
#![tactic(auto)]

#[cfg(test)]
mod boards;
#[cfg(test)]
mod gates;
#[cfg(test)]
mod places;
#[cfg(test)]
mod runs;
#[cfg(test)]
mod schedules;
#[cfg(test)]
mod script;
