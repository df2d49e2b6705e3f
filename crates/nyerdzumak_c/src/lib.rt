// The C face: nyerdzumak's 59 calls, exported under their own names. Each is one call of nyerdzumak's, with its contract word
// for word, since a crate is a library or a static library and not both: what a call does is written, and proved, there.
#![tactic(auto)]

mod conics;
mod dates;
mod ground;
mod journal;
mod kinds;
mod roots;
mod shapes;
mod transforms;
