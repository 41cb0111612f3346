// Groups of four characters, read strictly (RFC 4648, 3.2, 3.3 and 3.5).
ghost use Rattle.std.specs.Prelude.{◌≡◌, ◌<◌, Some};
ghost use Rattle.base64_strict.specs.declared.Group.TheVariants.{Three};
ghost use Rattle.base64_strict.specs.Decode.{group_of, one_of, two_of, three_of};

use super::alphabet::sextet;
use super::{Group, PAD};

// One byte, of two letters and two pads.
fn one(p: u8, q: u8) -> Option<Group>
    requires { (p < 64) × (q < 64) }
    ensures { result ≡ one_of p q }
{
    if q % 16 == 0 {
        Some(Group::One(p * 4 + q / 16))
    } else {
        None
    }
}

// Two bytes, of three letters and a pad.
fn two(p: u8, q: u8, r: u8) -> Option<Group>
    requires { (p < 64) × ((q < 64) × (r < 64)) }
    ensures { result ≡ two_of p q r }
{
    if r % 4 == 0 {
        Some(Group::Two(p * 4 + q / 16, q % 16 * 16 + r / 4))
    } else {
        None
    }
}

// The three bytes of four letters' numbers.
pub fn three(p: u8, q: u8, r: u8, t: u8) -> (u8, u8, u8)
    requires { (p < 64) × ((q < 64) × ((r < 64) × (t < 64))) }
    ensures { Some (Three result.0 result.1 result.2) ≡ three_of p q r t }
{
    (p * 4 + q / 16, q % 16 * 16 + r / 4, r % 4 * 64 + t)
}

// What four characters stand for; a character is any number.
pub fn group_of(a: u32, b: u32, c: u32, d: u32) -> Option<Group>
    ensures { result ≡ group_of a b c d }
{
    let p = sextet(a)?;
    let q = sextet(b)?;
    if d == PAD as u32 {
        if c == PAD as u32 {
            one(p, q)
        } else {
            two(p, q, sextet(c)?)
        }
    } else {
        let (x, y, z) = three(p, q, sextet(c)?, sextet(d)?);
        Some(Group::Three(x, y, z))
    }
}
