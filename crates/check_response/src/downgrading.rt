// Whether a version above the one that was chosen stands in two lists of versions.
ghost use Rattle.std.specs.Prelude.{◌≡◌};
ghost use Rattle.check_response.specs.Downgrade.{asked_above, downgrades};

use wire_packet::fields::lacks;

// Some version of the list `vers` is above the one that was chosen, and stands in the request's list `ver`. At most 32
// versions are sought among 32: that both lists rise is not used.
pub fn downgrades_to<'a>(vers: &'a [u8], ver: &'a [u8], chosen: u32) -> bool
    ensures { result ≡ downgrades vers.now ver.now chosen }
{
    let (versions, _) = vers.as_chunks::<4>();
    versions.iter().any(|version| asked_above(ver, chosen, u32::from_le_bytes(*version)))
}

// The version v is above the one that was chosen, and stands in the request's list.
fn asked_above(ver: &[u8], chosen: u32, v: u32) -> bool
    ensures { result ≡ asked_above ver.now chosen v }
{
    chosen < v && !lacks(ver, v)
}
