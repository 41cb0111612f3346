// What is lent of many servers, and the servers one after the other.
ghost use Rattle.std.specs.Prelude.{◌≡◌, true, eqb};
ghost use Rattle.list_write.specs.Lent.{total, fitted};
ghost use Rattle.list_write.specs.Lending.{lent_of};

use super::server::Server;

// Keys of 32 bytes, one after the other; the numbers of the versions; the names, one after the other, and how long each
// is; and so the lines of the addresses.
#[derive(Clone, Copy)]
pub struct Lent<'a> {
    pub keys: &'a [u8],
    pub versions: &'a [u32],
    pub names: &'a [u8],
    pub name_lengths: &'a [u32],
    pub addresses: &'a [u8],
    pub address_lengths: &'a [u32],
}

// The servers that are left, of which all that is lent fits together.
#[derive(Clone, Copy)]
pub struct Servers<'a> {
    pub left: Lent<'a>,
    pub ghost whole: { fitted (lent_of left) ≡ true },
}

// Whether the lengths come to n.
fn comes_to(lengths: &[u32], n: usize) -> bool
    ensures { result ≡ eqb (total lengths.now) n }
{
    let mut left = n;
    for length in lengths {
        let k = *length as usize;
        if left < k {
            return false;
        }
        left -= k;
    }
    left == 0
}

impl<'a> Lent<'a> {
    ghost use Rattle.list_write.specs.Facts.{Fits};

    // Whether all that is lent fits together.
    fn fits(self) -> bool
        ensures { result ≡ fitted (lent_of self.entry) }
    {
        let n = self.versions.len();
        if self.keys.len() % 32 != 0 {
            return false;
        }
        if self.keys.len() / 32 != n {
            return false;
        }
        if self.name_lengths.len() != n {
            return false;
        }
        if self.address_lengths.len() != n {
            return false;
        }
        if !comes_to(self.name_lengths, self.names.len()) {
            return false;
        }
        comes_to(self.address_lengths, self.addresses.len())
    }

    // The servers, if it does.
    pub fn servers(self) -> Option<Servers<'a>>
        ensures { Fits self.entry result }
    {
        if self.fits() {
            Some(Servers { left: self })
        } else {
            None
        }
    }
}

impl<'a> Iterator for Servers<'a> {
    ghost use Rattle.std.specs.Iterator.{YieldsFirstBy, item_count};
    ghost use Rattle.list_write.specs.Lending.{given_of};
    ghost use Rattle.list_write.specs.Facts.{given_left};

    type Item = Server<'a>;

    ghost next_gives = { YieldsFirstBy given_of given_left };

    ghost remaining = { item_count given_left };

    fn next(&mut self) -> Option<Server<'a>> {
        let l = self.left;
        let (version, versions) = l.versions.split_first()?;
        let (name_length, name_lengths) = l.name_lengths.split_first()?;
        let (address_length, address_lengths) = l.address_lengths.split_first()?;
        let (key, keys) = l.keys.split_first_chunk::<32>()?;
        let (name, names) = l.names.split_at(*name_length as usize);
        let (lines, addresses) = l.addresses.split_at(*address_length as usize);
        let left = Lent {
            keys,
            versions,
            names,
            name_lengths,
            addresses,
            address_lengths,
        };
        *self = Servers { left };
        Some(Server {
            name,
            version: *version,
            key,
            addresses: lines,
        })
    }
}
