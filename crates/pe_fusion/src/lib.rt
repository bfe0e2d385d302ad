//! Fusion: the elements into which the operators of a graph are fused, and the links between them.
#![tactic(auto)]

mod answer;
mod elements;
mod fusing;
mod grouping;
mod laws;
mod links;
mod pieces;
mod porting;
mod ports;
mod readers;
mod regions;
mod starts;

pub use answer::FuseAnswer;
pub use fusing::fuse;
pub use grouping::{Groups, groups};
pub use laws::{facts_law, fusion_on_literals, pieces_law, wired_law};
pub use porting::element_ports;
pub use ports::ElementPorts;
