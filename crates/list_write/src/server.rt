// What is lent of one server.
ghost use Rattle.std.specs.Prelude.{◌≡◌, length};

// One server: its name as UTF-8, the number of its version, its key, and the lines of its addresses.
#[derive(Clone, Copy)]
pub struct Server<'a> {
    pub name: &'a [u8],
    pub version: u32,
    pub key: &'a [u8; 32],
    pub addresses: &'a [u8],
    pub ghost long: { length key.now ≡ 32 },
}
