//! Texts of rules about ports, and texts that are none.

use crate::asked::wants;
use mf_rule::{MOST_PORT_RULES, PortRule, read_ports, same_port_rules};
use std::alloc::{AllocError, Global};

/// Uid 80 and TCP port 80.
const WWW: PortRule = PortRule {
    group: false,
    id: 80,
    tcp: true,
    port: 80,
};

/// Gid 0 and UDP port 53.
const DOMAIN: PortRule = PortRule {
    group: true,
    id: 0,
    tcp: false,
    port: 53,
};

/// The last gid and the last TCP port.
const LAST: PortRule = PortRule {
    group: true,
    id: 4_294_967_295,
    tcp: true,
    port: 65_535,
};

/// Texts, each with the rules that it spells.
const RULES: &[(&str, &[PortRule])] = &[
    ("", &[]),
    ("uid:80:tcp:80", &[WWW]),
    ("uid:0080:tcp:080", &[WWW]),
    ("uid:80:tcp:80,gid:0:udp:53", &[WWW, DOMAIN]),
    ("gid:0:udp:53,uid:80:tcp:80", &[DOMAIN, WWW]),
    (
        "gid:4294967295:tcp:65535,uid:80:tcp:80,gid:4294967295:tcp:65535",
        &[LAST, WWW, LAST],
    ),
];

/// Texts that spell no rules.
const NO_RULES: &[&str] = &[
    ",",
    "uid:80:tcp:80,",
    ",uid:80:tcp:80",
    "uid:80:tcp:80,,gid:0:udp:53",
    "uid:80:tcp:80;gid:0:udp:53",
    "uid:80:tcp:80,gid:0:udp",
    "uid",
    "uid:80",
    "uid:80:tcp",
    "uid:80:tcp:",
    "uid::tcp:80",
    "uid:80:tcp:80:",
    "uid:80:tcp:80:80",
    "uid:root:tcp:80",
    "user:80:tcp:80",
    "UID:80:tcp:80",
    "uid:80:tcpx:80",
    "uid:80:tcp:http",
    "uid:80:tcp:65536",
    "uid:4294967296:tcp:80",
    "uid:+1:tcp:80",
    "uid:80:tcp:-1",
    " uid:80:tcp:80",
    "uid:80:tcp:80, gid:0:udp:53",
];

/// Whether the text spells these rules.
fn spells(text: &str, rules: &[PortRule]) -> bool {
    match read_ports(text) {
        Some(found) => found.as_slice() == rules,
        None => false,
    }
}

#[test]
fn rules_about_ports(rt: HostRuntime) {
    for (text, rules) in RULES {
        wants(&rt, text, spells(text, rules));
    }
}

#[test]
fn no_rules_about_ports(rt: HostRuntime) {
    for text in NO_RULES {
        wants(&rt, text, read_ports(text).is_none());
    }
}

/// How many rules are read of a text of that many.
fn read_many(alloc: Global, many: usize) -> Result<Option<usize>, AllocError> {
    let mut text = String::from_str(alloc, "uid:80:tcp:80")?;
    for _ in 1..many {
        text.push_str(",uid:80:tcp:80")?;
    }
    match read_ports(text.as_str()) {
        Some(rules) => Ok(Some(rules.len())),
        None => Ok(None),
    }
}

/// Numbers of rules, each with whether that many are read.
const NUMBERS: &[(usize, bool)] = &[
    (MOST_PORT_RULES - 1, true),
    (MOST_PORT_RULES, true),
    (MOST_PORT_RULES + 1, false),
    (75_000, false),
];

#[test]
fn most_rules_about_ports(rt: HostRuntime) {
    for (many, are_read) in NUMBERS {
        let wanted = if *are_read { Some(*many) } else { None };
        wants(&rt, "as many", read_many(rt.alloc(), *many) == Ok(wanted));
    }
}

/// Texts of rules, each with another one, and whether they spell the same rules.
const PAIRS: &[(&str, &str, bool)] = &[
    ("", "", true),
    ("uid:80:tcp:80", "uid:080:tcp:80", true),
    ("uid:80:tcp:80", "", false),
    ("uid:80:tcp:80", "uid:80:udp:80", false),
    ("uid:1:tcp:2,uid:3:tcp:4", "uid:1:tcp:2", false),
    ("uid:1:tcp:2,uid:3:tcp:4", "uid:3:tcp:4,uid:1:tcp:2", false),
];

/// Whether both texts spell rules, which are the same or not, as is wanted.
fn are_the_same(text: &str, other: &str, wanted: bool) -> bool {
    match (read_ports(text), read_ports(other)) {
        (Some(rules), Some(others)) => same_port_rules(&rules, &others) == wanted,
        _ => false,
    }
}

#[test]
fn same_rules_about_ports(rt: HostRuntime) {
    for (text, other, wanted) in PAIRS {
        wants(&rt, text, are_the_same(text, other, *wanted));
    }
}
