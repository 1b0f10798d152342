// A session's listing: its reduced net, tally and map, written to a page stage by stage.
#![tactic(auto)]

mod counts;
mod going;
mod maps;
mod nodes;
mod outs;
mod report;
mod rest;
mod section;
mod stage;

pub use counts::Counts;
pub use going::begin;
pub use maps::Maps;
pub use nodes::Nodes;
pub use outs::Outs;
pub use report::{write_net, write_report};
pub use section::Section;
pub use stage::{Declined, MapsStage, NodesStage, OutsStage, Stage, TallyStage};
