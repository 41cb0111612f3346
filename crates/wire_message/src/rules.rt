// Which tags a message needs, and the rules of their values.
ghost use Rattle.std.specs.Prelude.{◌≡◌};
ghost use Rattle.wire_message.specs.Rules.{nonzero_bad, versions_bad, siblings_bad, value_bad, absent, broken};
ghost use Rattle.wire_message.specs.Rules.{some_absent, some_broken, broken_place, message_code};
ghost use Rattle.wire_message.specs.Sentences.{Good};
ghost use Rattle.refusal.specs.Refusal.{passes, shifted, when_at};
ghost use Rattle.wire_message.specs.Values.{value_of, value_start};

use super::frame::{first_fall, frame_code};
use super::values::{has_tag, value_of, value_start};
use octets::le32;
use refusal::{Refusal, codes, refuse_at};

// What the value of a tag has to be: a message of any length, which its own table judges; so many bytes; a u32 that is
// not 0; 1 to 32 versions of 4 bytes, strictly rising; or 0 to 32 siblings of 32 bytes.
#[derive(Clone, Copy)]
pub enum Rule {
    Message,
    Length(usize),
    Nonzero,
    Versions,
    Siblings,
}

// A row of a table: a tag, whether it must be there, and the rule of its value, which holds of a tag that may be absent
// too: so the bit stands beside the rule, and is no Option of it.
#[derive(Clone, Copy)]
pub struct TagRule {
    pub tag: u32,
    pub needed: bool,
    pub rule: Rule,
}

// Codes 4 to 7 of a message by a table, with their places.
pub fn message_code(m: &[u8], table: &[TagRule]) -> Result<(), Refusal>
    ensures { result ≡ passes (message_code m.now table.now) }
{
    frame_code(m)?;
    if some_absent(m, table) {
        return Err(refuse_at(codes::TAG_ABSENT, 0));
    }
    values_code(m, table)
}

// Codes 4 to 7 of the message that is a tag's value, by its own table, with their places in the message m around it.
pub fn value_code(m: &[u8], tag: u32, table: &[TagRule]) -> Result<(), Refusal>
    requires { Good m.now }
    ensures { result
        ≡ passes (shifted (value_start m.now tag) (message_code (value_of m.now tag) table.now)) }
{
    let start = value_start(m, tag);
    message_code(value_of(m, tag), table).map_err(|why| why.shifted(start))
}

// Some tag of a table is needed and absent.
fn some_absent(m: &[u8], table: &[TagRule]) -> bool
    requires { Good m.now }
    ensures { result ≡ some_absent m.now table.now }
{
    table.iter().any(|row| row_absent(m, row))
}

fn row_absent(m: &[u8], row: &TagRule) -> bool
    requires { Good m.now }
    ensures { result ≡ absent m.now row.now.tag row.now.needed }
{
    row.needed && !has_tag(m, row.tag)
}

// Code 7 at the start of the first value, in the table's order, that breaks its rule.
fn values_code(m: &[u8], table: &[TagRule]) -> Result<(), Refusal>
    requires { Good m.now }
    ensures { result
        ≡ passes (when_at (some_broken m.now table.now) 7 (broken_place m.now table.now)) }
{
    for row in table {
        if row_broken(m, row) {
            return Err(refuse_at(codes::VALUE, value_start(m, row.tag)));
        }
    }
    Ok(())
}

fn row_broken(m: &[u8], row: &TagRule) -> bool
    requires { Good m.now }
    ensures { result ≡ broken m.now row.now.tag row.now.rule }
{
    has_tag(m, row.tag) && value_bad(row.rule, value_of(m, row.tag))
}

// A value breaks its rule.
fn value_bad(rule: Rule, v: &[u8]) -> bool
    ensures { result ≡ value_bad rule v.now }
{
    match rule {
        Rule::Message => false,
        Rule::Length(n) => v.len() != n,
        Rule::Nonzero => nonzero_bad(v),
        Rule::Versions => versions_bad(v),
        Rule::Siblings => siblings_bad(v),
    }
}

// Not a u32, or 0.
fn nonzero_bad(v: &[u8]) -> bool
    ensures { result ≡ nonzero_bad v.now }
{
    v.len() != 4 || le32(v, 0) == 0
}

// Not 1 to 32 versions of 4 bytes, strictly rising.
fn versions_bad(v: &[u8]) -> bool
    ensures { result ≡ versions_bad v.now }
{
    if v.len() < 4 || 128 < v.len() || v.len() % 4 != 0 {
        return true;
    }
    let n = v.len() / 4;
    first_fall(v, 0, n) < n - 1
}

// Not 0 to 32 siblings of 32 bytes.
fn siblings_bad(v: &[u8]) -> bool
    ensures { result ≡ siblings_bad v.now }
{
    1024 < v.len() || v.len() % 32 != 0
}
