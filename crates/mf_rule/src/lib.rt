//! Rules about files of mac_bsdextended(4): their texts as ugidfw(8) has them, lists of rules, and what a list says of an
//! access. Rules about ports of mac_portacl(4), and their text.
#![tactic(auto)]

mod begun;
mod fault;
mod law;
mod ports;
mod printing;
mod reading;
mod rule;
mod rule_bits;
mod rule_list;
mod uid_index;
mod values;

pub use fault::RuleFault;
pub use law::{canonical_text_stands_for_its_rule, what_is_read_is_a_rule};
pub use ports::{LAST_PORT, MOST_PORT_RULES, PortRule, PortRules, read_ports, same_port_rules};
pub use printing::print_rule;
pub use reading::read_rule;
pub use rule::{
    ADMINISTER, ANY_TYPE, BLOCK, CHARACTER, DIRECTORY, EXECUTE, FIFO, IdTest, LAST_ID, LINK,
    ObjectSide, READ, REGULAR, Rule, SOCKET, STAT, Side, TypeTest, WRITE,
};
pub use rule_bits::RuleBits;
pub use rule_list::{MAX_RULES, NoRule, RuleList};
