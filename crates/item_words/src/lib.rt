// Reading the words of an item and of a plan for it.
#![tactic(auto)]

mod items;
mod mistakes;

pub use items::{ItemRequest, PlanRequest, item_request, plan_request};
pub use mistakes::{CommandError, Misuse};
