// IPv4 addresses in dotted decimal.
ghost use Rattle.std.specs.Prelude.{◌≡◌};
ghost use Rattle.list_address.specs.Host.{is_ipv4};

use super::decimal::is_octet;
use super::parts::line;

pub fn is_ipv4(s: &[u8]) -> bool
    ensures { result ≡ is_ipv4 s.now }
{
    let Some((n, last)) = line(s, b'.', is_octet) else {
        return false;
    };
    n == 3 && is_octet(last)
}
