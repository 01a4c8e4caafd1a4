//! Nets over a sealed ground, which they ask by its public questions: the corner net, and soundness
//! by the star net. A question is handed the ground and the vertices, as those who ask have them.
#![tactic(auto)]

mod corner_step;
mod corners;
mod edges;
mod star_net;
mod vertices;

pub use corner_step::rings_stand;
pub use corners::{CornerNet, corner_net};
pub use edges::{edge_sound, edges_stand};
pub use vertices::vertex_sound;
