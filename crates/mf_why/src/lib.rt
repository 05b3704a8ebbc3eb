//! Why calls were denied: by which policies, by which of their tests, and what these compared. And by which rules others were allowed.
#![tactic(auto)]

mod adding;
mod calls;
mod causes;
mod deniers;
mod extent;
mod laws;
mod lowerings;
mod permits;
mod reasons;
mod titles;

pub use adding::add_why;
pub use extent::Extent;
pub use laws::{
    denials_are_told, deniers_compose, each_denier_is_told, each_rule_is_told, file_rules_allow,
    lowerings_are_told, one_decides, port_rules_allow, privileges_have_no_denier,
};
