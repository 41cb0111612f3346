// Lines as the elements of an array. Each function that puts answers the index at which its piece ends.
ghost use Rattle.std.specs.Prelude.{◌≡◌, true, ◌+◌, ◌≤◌, length};
ghost use Rattle.laws.specs.Written.{Puts};
ghost use Rattle.list_write.specs.Lines.{lines_of, is_address_line, is_item, all_good};
ghost use Rattle.list_write.specs.Texts.{address_text, item_text, items_text};

use super::Item;
use super::lines::{Lines, line_text};
use super::pieces::{put_byte, put_word};
use json_quote::put_quoted;

// An address, from its line.
fn put_address(out: &mut [u8], at: usize, t: &[u8]) -> usize
    requires { (is_address_line t.now ≡ true) × (at + length (address_text t.now) ≤ length out.old) }
    ensures { Puts out.old at (address_text t.now) out.new result }
{
    let a = put_word(out, at, b"{\"protocol\":\"");
    let b = put_word(out, a, &t[..3]);
    let c = put_word(out, b, b"\",\"address\":");
    let d = put_quoted(out, c, &t[4..]);
    put_byte(out, d, b'}')
}

// What a line holds.
fn put_item(out: &mut [u8], at: usize, t: &[u8], item: Item) -> usize
    requires { (is_item item t.now ≡ true) × (at + length (item_text item t.now) ≤ length out.old) }
    ensures { Puts out.old at (item_text item t.now) out.new result }
{
    match item {
        Item::Source => put_quoted(out, at, t),
        Item::Address => put_address(out, at, t),
    }
}

// All lines, with commas between them, and the closing bracket.
pub fn put_items(out: &mut [u8], at: usize, s: &[u8], item: Item) -> usize
    requires { (all_good item (lines_of s.now) ≡ true)
        × (at + length (items_text item (lines_of s.now)) ≤ length out.old) }
    ensures { Puts out.old at (items_text item (lines_of s.now)) out.new result }
{
    let mut j = at;
    let mut before: &[u8] = b"";
    for line in Lines(s) {
        let a = put_word(out, j, before);
        j = put_item(out, a, line_text(line), item);
        before = b",";
    }
    put_byte(out, j, b']')
}
