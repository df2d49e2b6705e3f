// The C face's calls over numbers and lent buffers, each a thin call of the layer below. A call that can refuse answers with
// its number in docs/RULES.md, "Answer numbers", 0 where there is none; a refusal changes nothing that is lent. A call that
// cannot refuse returns what it gives, or nothing. Here they are a library, for Rattle; nyerdzumak_c exports them.
#![tactic(auto)]

pub mod conics;
pub mod dates;
pub mod ground;
pub mod journal;
pub mod kinds;
pub mod roots;
pub mod shapes;
pub mod transforms;
