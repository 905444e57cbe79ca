//! The single steps on the words, and the cuts and joins of seats, under no name: each asks that the seat is of this
//! table. What a step tells is one equation on the view of its seat.
mod applications;
mod boardings;
mod cuts;
mod glances;
mod lives;
mod marks;
mod meetings;
mod references;
mod rides;
mod sights;
