// What C is told of server lists in the public format: structs and answers as in `c_packets`. Beside a refusal stand
// zeros. No function has a `requires`.
#![tactic(auto)]

mod addresses;
mod reading;

// What `tb_read_servers` answers: how many records there are, and how many servers were passed over.
#[repr(C)]
#[derive(Clone, Copy)]
pub struct TbServers {
    pub code: u32,
    pub records: u64,
    pub passed_over: u64,
}

// What `tb_server_address` answers: whether the address is one of TCP, and how many octets it has.
#[repr(C)]
#[derive(Clone, Copy)]
pub struct TbAddressed {
    pub code: u32,
    pub tcp: u32,
    pub length: u64,
}
