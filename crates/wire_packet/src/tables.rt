// The tables of the five messages: of each tag that a message must or may have, in the order of the tags, a row with the
// rule of its value.
use wire_message::tags::{
    CERT, DELE, INDX, MAXT, MIDP, MINT, NONC, PATH, PUBK, RADI, ROOT, SIG, SREP, SRV, TYPE, VER,
    VERS,
};
use wire_message::{Rule, TagRule};

// A row whose tag must be there.
macro_rules! must {
    ($tag:expr, $rule:expr) => {
        TagRule {
            tag: $tag,
            needed: true,
            rule: $rule,
        }
    };
}

// A row whose tag may be absent.
macro_rules! may {
    ($tag:expr, $rule:expr) => {
        TagRule {
            tag: $tag,
            needed: false,
            rule: $rule,
        }
    };
}

pub const REQUEST_TABLE: [TagRule; 4] = [
    must!(VER, Rule::Versions),
    may!(SRV, Rule::Length(32)),
    must!(NONC, Rule::Length(32)),
    must!(TYPE, Rule::Length(4)),
];

// Of a response: the root message, SREP and CERT in it, and DELE in CERT.
pub const ROOT_TABLE: [TagRule; 7] = [
    must!(SIG, Rule::Length(64)),
    must!(NONC, Rule::Length(32)),
    must!(TYPE, Rule::Length(4)),
    must!(PATH, Rule::Siblings),
    must!(SREP, Rule::Message),
    must!(CERT, Rule::Message),
    must!(INDX, Rule::Length(4)),
];

pub const SREP_TABLE: [TagRule; 5] = [
    must!(VER, Rule::Length(4)),
    must!(RADI, Rule::Nonzero),
    must!(MIDP, Rule::Length(8)),
    must!(VERS, Rule::Versions),
    must!(ROOT, Rule::Length(32)),
];

pub const CERT_TABLE: [TagRule; 2] = [must!(SIG, Rule::Length(64)), must!(DELE, Rule::Message)];

pub const DELE_TABLE: [TagRule; 3] = [
    must!(PUBK, Rule::Length(32)),
    must!(MINT, Rule::Length(8)),
    must!(MAXT, Rule::Length(8)),
];
